//! How often a subprogram is active.

ghost use Rattle.std.specs.Prelude.{◌≡◌, pos, reverse};
ghost use Rattle.asl_rules.specs.runs.Forms as forms;
ghost use Rattle.asl_rules.specs.values.Operators.{less};

/// How often a subprogram is active.
fn activations(id: usize, live: &[usize]) -> usize
    ensures { result ≡ forms.activations id (reverse live.now) }
{
    let mut count = 0;
    for other in live {
        if *other == id {
            count += 1;
        }
    }
    count
}

/// Whether a subprogram may be active once more.
pub fn has_room(id: usize, live: &[usize], limit: i128) -> bool
    ensures { result ≡ less (pos (forms.activations id (reverse live.now))) limit }
{
    (activations(id, live) as i128) < limit
}
