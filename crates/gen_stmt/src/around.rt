//! What stands round a statement.

ghost use Rattle.std.specs.Prelude.{◌≡◌, ◌+◌, ◌<◌, ◌^◌};
ghost use Rattle.gen_stmt.specs.Loops as spec;
ghost use Rattle.gen_stmt.specs.Scopes as scope;

/// The locals from one number to another, which are those of scopes within one another and perhaps of others that are left.
#[derive(Clone, Copy)]
pub struct Range {
    pub first: u32,
    pub last: u32,
}

/// What stands round a statement.
#[derive(Clone, Copy)]
pub struct Around {
    /// The label behind its loop.
    pub broke: u32,
    /// The label where the next turn of its loop begins.
    pub continued: u32,
    /// The locals of the scopes that are open in the loop's body.
    pub opened: Option<Range>,
}

// What stands round the body of a loop whose labels begin with this one.
pub fn in_loop(label: u32) -> Around
    requires { label + 3 < 2 ^ 32 }
    ensures { result ≡ spec.in_loop (label + 2) label }
{
    Around {
        broke: label + 2,
        continued: label,
        opened: None,
    }
}

// The locals of all open scopes, with a scope more inside.
fn widened(opened: Option<Range>, range: Range) -> Range
    ensures { result ≡ scope.widened opened range }
{
    match opened {
        None => range,
        Some(around) => Range {
            first: around.first.min(range.first),
            last: around.last.max(range.last),
        },
    }
}

// What stands round a statement in a scope more.
pub fn inside(around: Around, range: Range) -> Around
    ensures { result ≡ spec.inside around range }
{
    Around {
        broke: around.broke,
        continued: around.continued,
        opened: Some(widened(around.opened, range)),
    }
}
