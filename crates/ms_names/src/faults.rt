// The least line with a fault.
ghost use Rattle.std.specs.Prelude.{◌≡◌};
ghost use Rattle.ms_names.specs.Draft.{earlier, with_fault};

/// The earlier of two lines.
pub fn earlier(a: Option<u32>, b: Option<u32>) -> Option<u32>
    ensures { result ≡ earlier a b }
{
    match (a, b) {
        (None, _) => b,
        (Some(_), None) => a,
        (Some(a), Some(b)) => Some(a.min(b)),
    }
}

pub(crate) fn with_fault(least: Option<u32>, fault: bool, line: u32) -> Option<u32>
    ensures { result ≡ with_fault least fault line }
{
    if fault {
        earlier(least, Some(line))
    } else {
        least
    }
}
