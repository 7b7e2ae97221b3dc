// Whether two texts are the same.
// Knows nothing of what they say.
#![tactic(auto)]

ghost use Rattle.std.specs.Prelude.{◌≡◌};
ghost use Rattle.text.specs.Same.{same_text};

// The slices' `==` is what the definitions call the same text; elsewhere but in `replay` code writes `==`.
#[tactic(auto, using(text::proofs::Same::same_pointwise))]
pub fn same(a: &[u8], b: &[u8]) -> bool
    ensures { result ≡ same_text a.now b.now }
{
    a == b
}
