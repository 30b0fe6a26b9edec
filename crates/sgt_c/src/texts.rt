//! Texts that bytes are answered by, and how they come to C.

ghost use Rattle.std.specs.Prelude.{◌≡◌, ◌≤◌, ◌<◌, ◌++◌, IfOk, IfErr, length, drop};
ghost use Rattle.sgt_c.specs.Answers.{IsRoom, number_of, number_of_outcome};

use crate::answers::{NoAnswer, SGT_NO, SGT_ROOM, SGT_YES};
use sgt_names::{EngineFail, Outcome};

/// `SGT_YES` or `SGT_NO`, with the text of the answer.
#[derive(Drop)]
pub struct Answered {
    pub number: u32,
    pub text: Vec<u8>,
}

/// The number of an outcome. Of what is called here none finds its input unreadable.
pub fn number_of_answer(outcome: Outcome) -> u32
    ensures { result ≡ number_of_outcome outcome }
{
    match outcome {
        Outcome::Yes => SGT_YES,
        Outcome::No | Outcome::Unreadable => SGT_NO,
    }
}

/// Why there is no answer. A writer into memory fails for want of memory alone.
pub fn no_answer(fail: EngineFail) -> NoAnswer
    ensures long { result ≡ NoAnswer.Long → fail ≡ EngineFail.ReadFault }
    ensures told { fail ≡ EngineFail.ReadFault → result ≡ NoAnswer.Long }
{
    match fail {
        EngineFail::Memory | EngineFail::WriteFault => NoAnswer::Memory,
        EngineFail::ReadFault => NoAnswer::Long,
    }
}

/// Says how long the text is, and returns the number.
pub fn measure(answer: &Result<Answered, NoAnswer>, text_len: &mut usize) -> u32
    ensures ok { IfOk answer.now (λ a. (result ≡ a.number) × (text_len.new ≡ length a.text.items)) }
    ensures err { IfErr answer.now (λ why. (result ≡ number_of why) × (text_len.new ≡ 0)) }
{
    match answer {
        Ok(answer) => {
            *text_len = answer.text.len();
            answer.number
        }
        Err(why) => {
            *text_len = 0;
            why.number()
        }
    }
}

/// Puts the text into the front of `out`, where it has room, and returns the number. Behind the text `out` stays as
/// it was.
pub fn put(answer: &Result<Answered, NoAnswer>, out: &mut [u8], text_len: &mut usize) -> u32
    ensures whole { IfOk answer.now (λ a. length a.text.items ≤ length out.old
        → (result ≡ a.number) × (out.new ≡ a.text.items ++ drop (length a.text.items) out.old)) }
    ensures room { IfOk answer.now
        (λ a. length out.old < length a.text.items → IsRoom result × (out.new ≡ out.old)) }
    ensures measured { IfOk answer.now (λ a. text_len.new ≡ length a.text.items) }
    ensures err { IfErr answer.now
        (λ why. (result ≡ number_of why) × (text_len.new ≡ 0) × (out.new ≡ out.old)) }
{
    let number = measure(answer, text_len);
    if let Ok(answer) = answer {
        let n = answer.text.len();
        if out.len() < n {
            return SGT_ROOM;
        }
        out[..n].copy_from_slice(answer.text.as_slice());
    }
    number
}
