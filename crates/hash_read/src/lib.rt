// The hash that a word says, on a line and on a sheet.
// Knows nothing of where the word stands, nor of how a hash is written.
#![tactic(auto)]

ghost use Rattle.std.specs.Prelude.{◌<◌, ◌^◌, ◌≡◌, map, length};
ghost use Rattle.std.specs.Char.{is_ascii_uppercase};
ghost use Rattle.std.specs.List.{list_any};
ghost use Rattle.hash_text.specs.Hex.{digit_value, hex_hash};
ghost use Rattle.hash_text.specs.LineHashes.{line_hash};
ghost use Rattle.hash_text.specs.SheetHashes.{sheet_hash};
ghost use Rattle.hash_read.specs.Values.{value_of, largest, number_on};

use hash::Hash;

#[tactic(auto, unfolding(hash_text::specs::Hex::digit_value))]
pub(crate) fn digit_value(b: u8) -> Option<u8>
    ensures { result ≡ digit_value b }
{
    match b {
        b'0'..=b'9' => Some(b - b'0'),
        b'a'..=b'f' => Some(b - b'a' + 10),
        b'A'..=b'F' => Some(b - b'A' + 10),
        _ => None,
    }
}

// A digit's value, and 255 for a byte that is none: a number, so that the loop over a word's bytes has no branch.
#[tactic(auto, unfolding(crate::specs::Values::value_of))]
pub(crate) fn value_of(b: u8) -> u8
    ensures { result ≡ value_of b }
{
    digit_value(b).unwrap_or(255)
}

// Lays out the values of a word's bytes, and hands back the largest, which tells whether all are digits. No byte ends the loop
// early, so that it is compiled to sixteen bytes a turn.
#[tactic(auto, using(crate::proofs::Values::laid_start, crate::proofs::Values::laid_more, crate::proofs::Values::laid_values, crate::proofs::Values::laid_top))]
pub(crate) fn put_values(word: &[u8], values: &mut [u8]) -> u8
    requires { length word.now ≡ length values.old }
    ensures values_after { values.new ≡ map value_of word.now }
    ensures value { result ≡ largest word.now }
{
    let mut most: u8 = 0;
    // By place and not by `zip`: the invariant can then name the bytes written.
    for (i, b) in word.iter().enumerate() {
        let v = value_of(*b);
        values[i] = v;
        most = most.max(v);
    }
    most
}

// The number that a row of values says. They are known to be those of digits by now, so none is tested here.
#[tactic(auto, using(crate::proofs::Values::number_below, crate::proofs::Values::number_more, crate::proofs::Values::number_done))]
pub(crate) fn number(values: &[u8]) -> u64
    requires { number_on 0 values.now < 2 ^ 64 }
    ensures { result ≡ number_on 0 values.now }
{
    let mut n = 0;
    for v in values {
        n = n * 16 + *v as u64;
    }
    n
}

// The hash that a row of digits says: sixteen for each of the four 64-bit words.
#[tactic(auto, using(hash_text::proofs::HexRead::hash_short, crate::proofs::Values::not_digits, crate::proofs::Values::part_below, crate::proofs::Values::all_digits))]
pub(crate) fn hex_hash(digits: &[u8]) -> Option<Hash>
    ensures { result ≡ hex_hash digits.now }
{
    if digits.len() != 64 {
        return None;
    }
    let mut values = [0u8; 64];
    if put_values(digits, &mut values) > 15 {
        return None;
    }
    let w0 = number(&values[0..16]);
    let w1 = number(&values[16..32]);
    let w2 = number(&values[32..48]);
    let w3 = number(&values[48..64]);
    Some(Hash { w0, w1, w2, w3 })
}

// What a word of a line says as a hash. For a caller that has the word in hand, since it may as well be a keyword.
#[tactic(auto, using(crate::proofs::Words::prefix_stands, crate::proofs::Words::too_short, crate::proofs::Words::other_first, crate::proofs::Words::other_second))]
pub fn line_hash(word: &[u8]) -> Option<Hash>
    ensures { result ≡ line_hash word.now }
{
    match word {
        [b'0', b'x', digits @ ..] => hex_hash(digits),
        _ => None,
    }
}

pub(crate) fn has_capital(word: &[u8]) -> bool
    ensures { result ≡ list_any is_ascii_uppercase word.now }
{
    word.iter().any(|b| b.is_ascii_uppercase())
}

// What a word of a sheet says as a hash.
#[tactic(auto, unfolding(hash_text::specs::SheetHashes::sheet_hash))]
pub fn sheet_hash(word: &[u8]) -> Option<Hash>
    ensures { result ≡ sheet_hash word.now }
{
    if has_capital(word) {
        return None;
    }
    line_hash(word)
}
