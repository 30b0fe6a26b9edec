//! What is answered to texts without a fault, by the search that is proved alone.

use sgt_certify::{Answer, sound_answer};
use sgt_certify_faults::first_fault;
use sgt_names::{EngineFail, Outcome};
use std::alloc::Global;
use std::test::Fail;

/// The answer to a text, if it has no fault.
fn answered(alloc: Global, text: &[u8]) -> Result<Option<Answer>, EngineFail> {
    match first_fault(alloc, text, true)? {
        Some(_) => Ok(None),
        None => Ok(Some(sound_answer(alloc, text)?)),
    }
}

#[test]
fn logs_and_their_answers(rt: HostRuntime) -> Result<(), Fail> {
    let alloc = rt.alloc();
    let two_commits: &[u8] = b"sgt 1\nsite 0\nitem x=0\nr1[x]=0\nc1\nw2[x]=2\nc2\nfinal x=2\nend\n";
    let certified: &[u8] =
        b"sgt 1\n{\"decisions\":[{\"commit\":1,\"rank\":0},{\"commit\":2,\"rank\":1}],\"sites\":1}\nsite 0\nitem x=0\nr1[x]=0\nc1\nw2[x]=2\nc2\nfinal x=2\nend\n";
    let lost_update: &[u8] =
        b"sgt 1\nsite 0\nitem x=0\nr1[x]=0\nr2[x]=0\nw1[x]=1\nc1\nw2[x]=2\nc2\nfinal x=2\nend\n";
    let crossed: &[u8] = b"sgt 1\nsite 0\nc1\nc2\nend\nsite 1\nc2\nc1\nend\n";
    let stuck: &[u8] = b"sgt 1\nsite 0\nn1\nend\n";
    for (text, outcome, wanted) in [
        (two_commits, Outcome::Yes, certified),
        (lost_update, Outcome::No, b"no ranks\n1\n2\n"),
        (crossed, Outcome::No, b"no order\n1\n2\n"),
        (stuck, Outcome::No, b"no walk\n"),
    ] {
        let Some(answer) = answered(alloc, text)? else {
            return Err(Fail::new("a text has a fault"));
        };
        assert_eq!(rt; answer.outcome, outcome);
        assert_eq!(rt; answer.text.as_slice(), wanted);
    }
    Ok(())
}
