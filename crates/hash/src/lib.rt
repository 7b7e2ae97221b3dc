// A hash of 32 bytes: alloy's `B256`. Knows nothing of what it is the hash of, nor of its text.
#![tactic(auto)]

ghost use Rattle.std.specs.Prelude.{◌≡◌};
ghost use Rattle.hash.specs.Hashes.{same_hash};

// Four 64-bit words, the most significant byte first, as document 01 has it.
#[derive(Clone, Copy, PartialEq, Eq)]
pub struct Hash {
    pub w0: u64,
    pub w1: u64,
    pub w2: u64,
    pub w3: u64,
}

// The derived `==` is document 01's equality of hashes: a law, since code writes `==`.
#[tactic(auto, unfolding(crate::specs::Hashes::same_hash))]
pub fn same_hash(a: Hash, b: Hash) -> bool
    ensures { result ≡ same_hash a b }
{
    a == b
}
