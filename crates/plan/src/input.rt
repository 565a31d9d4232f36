// A plan in front of something else, as the programs read it.
ghost use Rattle.std.specs.Prelude.{◌≡◌, ◌≤◌, length};
ghost use Rattle.plan.specs.Bytes.{plan_length};

// As many bytes as the first one implies, or all there are. Rules out a length past the end, and taking all for the plan.
pub fn plan_length(input: &[u8]) -> usize
    ensures { (result ≡ plan_length input.now) × (result ≤ length input.now) }
{
    match input.first() {
        Some(threads) => input.len().min(2 + 3 * usize::from(*threads)),
        None => 0,
    }
}
