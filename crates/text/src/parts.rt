// A text in two parts, with a byte between them.
ghost use Rattle.std.specs.Prelude.{◌≡◌, position, ◌==◌};
ghost use Rattle.std.specs.Option.{option_map};
ghost use Rattle.text.specs.Parts.{part_before, part_after};

// What stands before the first byte that is this one, and what comes after it, if there is one.
#[tactic(auto, using(crate::proofs::Cuts::before_cut, crate::proofs::Cuts::after_cut, crate::proofs::Cuts::all_before, crate::proofs::Cuts::none_after))]
pub fn split_at_byte(text: &[u8], byte: u8) -> (&[u8], Option<&[u8]>)
    ensures before { result.0.now ≡ part_before byte text.now }
    ensures after { option_map (λ x. x.now) result.1 ≡ part_after byte text.now }
{
    match place_of(text, byte) {
        Some(at) => (&text[..at], Some(&text[at + 1..])),
        None => (text, None),
    }
}

// Where the first such byte stands.
fn place_of(text: &[u8], byte: u8) -> Option<usize>
    ensures { result ≡ position (λ c. c == byte) text.now }
{
    text.iter().position(|found| *found == byte)
}
