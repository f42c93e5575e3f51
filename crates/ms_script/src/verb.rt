// The words that begin the lines of a script.
ghost use Rattle.std.specs.Prelude.{◌≡◌, ◌≢◌, MatchOption};
ghost use Rattle.ms_script.specs.Verbs.{verb_text};
ghost use Rattle.ms_script.specs.declared.verb.Verb.{Verb};

#[derive(Clone, Copy)]
pub enum Verb {
    Insert,
    Remove,
    Move,
    Unlink,
}

#[tactic(auto, unfolding(crate::specs::Verbs::verb_text))]
fn verb_bytes(verb: Verb) -> &'static [u8]
    ensures { result.now ≡ verb_text verb }
{
    match verb {
        Verb::Insert => b"insert",
        Verb::Remove => b"remove",
        Verb::Move => b"move",
        Verb::Unlink => b"unlink",
    }
}

// The verb that bytes spell.
pub fn verb_of(text: &[u8]) -> Option<Verb>
    ensures { MatchOption result ((verb : Verb) → text.now ≢ verb_text verb) (λ verb. text.now ≡ verb_text verb) }
{
    if text == verb_bytes(Verb::Insert) {
        return Some(Verb::Insert);
    }
    if text == verb_bytes(Verb::Remove) {
        return Some(Verb::Remove);
    }
    if text == verb_bytes(Verb::Move) {
        return Some(Verb::Move);
    }
    if text == verb_bytes(Verb::Unlink) {
        return Some(Verb::Unlink);
    }
    None
}
