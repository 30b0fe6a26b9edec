//! The options of `check`.

ghost use Rattle.std.specs.Prelude.{◌∷◌, ◌++◌, [], ℕ, All, IfNone, IfSome, List, map, string_bytes};
ghost use Rattle.sgt_command_line.specs.Check.{IsCheckOption, SaysCheck};

/// What the options of a check ask for.
#[derive(Clone, Copy, Debug, PartialEq, Eq)]
pub struct CheckWanted {
    /// Behind a yes, an order that serves.
    pub order: bool,
    /// An order keeps real time.
    pub real_time: bool,
    /// An order keeps sessions.
    pub sessions: bool,
}

// What is wanted with one option more.
fn with_option(wanted: CheckWanted, option: &str) -> Option<CheckWanted>
    ensures some { IfSome result (λ more. (before : List (List ℕ)) → SaysCheck before wanted
        → SaysCheck (before ++ (option.now ∷ [])) more) }
    ensures none { IfNone result (IsCheckOption option.now → ⊥) }
{
    if option == "--order" {
        return Some(CheckWanted {
            order: true,
            ..wanted
        });
    }
    if option == "--real-time" {
        return Some(CheckWanted {
            real_time: true,
            ..wanted
        });
    }
    if option == "--sessions" {
        return Some(CheckWanted {
            sessions: true,
            ..wanted
        });
    }
    None
}

/// What the options ask for, where each is one of a check's.
pub fn check_wanted(options: &[String]) -> Option<CheckWanted>
    ensures some { IfSome result (SaysCheck (map string_bytes options.now)) }
    ensures none { IfNone result (All IsCheckOption (map string_bytes options.now) → ⊥) }
{
    let mut wanted = CheckWanted {
        order: false,
        real_time: false,
        sessions: false,
    };
    for option in options {
        wanted = with_option(wanted, option.as_str())?;
    }
    Some(wanted)
}
