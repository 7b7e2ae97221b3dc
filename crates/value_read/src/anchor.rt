// Hashes and anchors. Only what a word says as a hash depends on where it stands.
ghost use Rattle.std.specs.Prelude.{◌≡◌};
ghost use Rattle.line_reader.specs.Reads.{rest, Reads};
ghost use Rattle.value_text.specs.Reads.{hash_said, read_anchor, read_block_hash, read_hash, read_slot};

use hash::Hash;
use hash_read::{line_hash, sheet_hash};
use head_values::ReadAnchor;
use line_reader::LineReader;
use text_decimal::take_decimal;
use value_text::page::Page;

// The hash that a word says.
#[tactic(auto, unfolding(value_text::specs::Reads::hash_said))]
pub(crate) fn hash_said(page: Page, word: &[u8]) -> Option<Hash>
    ensures { result ≡ hash_said page word.now }
{
    match page {
        Page::Line => line_hash(word),
        Page::Sheet => sheet_hash(word),
    }
}

// HASH, which is never `none`: a parent hash.
#[tactic(auto, unfolding(value_text::specs::Reads::read_hash, value_text::specs::Reads::hash_got))]
pub fn take_hash(r: &mut LineReader<'_>, page: Page) -> Option<Hash>
    ensures { Reads r.old r.new result (read_hash page (rest r.old)) }
{
    hash_said(page, r.take_word())
}

// HASH or `none`. The word is looked for once: it is a keyword or a hash.
#[tactic(auto, using(crate::proofs::Keywords::same_bytes, crate::proofs::Keywords::other_length, crate::proofs::Keywords::other_byte), unfolding(value_text::specs::Reads::read_block_hash, value_text::specs::Reads::or_word, value_text::specs::Reads::map, value_text::specs::Reads::read_hash, value_text::specs::Reads::hash_got, text::specs::Rests::says, value_text::specs::Words::word_text))]
pub(crate) fn take_block_hash(r: &mut LineReader<'_>, page: Page) -> Option<Option<Hash>>
    ensures { Reads r.old r.new result (read_block_hash page (rest r.old)) }
{
    match r.take_word() {
        b"none" => Some(None),
        word => Some(Some(hash_said(page, word)?)),
    }
}

// `(NUMBER HASH)` or `(NUMBER none)`.
#[tactic(auto, using(crate::proofs::Stopped::number_stopped, crate::proofs::Stopped::byte_stopped, crate::proofs::Stopped::block_hash_stopped), unfolding(value_text::specs::Reads::read_anchor))]
pub fn take_anchor(r: &mut LineReader<'_>, page: Page) -> Option<ReadAnchor>
    ensures { Reads r.old r.new result (read_anchor page (rest r.old)) }
{
    r.past_byte(b'(')?;
    let number = take_decimal(r)?;
    r.past_byte(b' ')?;
    let hash = take_block_hash(r, page)?;
    r.past_byte(b')')?;
    Some(ReadAnchor { number, hash })
}

// An anchor or `none`.
#[tactic(auto, unfolding(value_text::specs::Reads::read_slot, value_text::specs::Reads::or_word, value_text::specs::Reads::map, value_text::specs::Words::word_text))]
pub fn take_slot(r: &mut LineReader<'_>, page: Page) -> Option<Option<ReadAnchor>>
    ensures { Reads r.old r.new result (read_slot page (rest r.old)) }
{
    if r.past_keyword(b"none") {
        return Some(None);
    }
    Some(Some(take_anchor(r, page)?))
}
