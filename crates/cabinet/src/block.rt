// One block: whether it is damaged, and one made.
ghost use Rattle.std.specs.Prelude.{◌≡◌, ◌≤◌, length};
ghost use Rattle.cabinet.specs.Block.{most_text, length_in, layout_right, digest_right, sound, damaged, block_of};

use crate::{DIGEST_PLACE, HEIGHT_PLACE, LENGTH_PLACE, MOST_TEXT, TAIL_PLACE, TEXT_PLACE};
use checks::{BLOCK, CHECKED, DIGEST, check_of, is_checked};
use octets::{array_at, copy_at, is_zero, number_at, put_number};
use rows::{LABEL, TAIL, TOP};

// The text length that a block says.
fn text_length(b: &[u8; BLOCK]) -> usize
    ensures { result ≡ length_in b.now }
{
    usize::from(u16::from_be_bytes(array_at(b, LENGTH_PLACE)))
}

// Whether label, height, text length and zeros are as the layout has them.
#[tactic(auto, unfolding(crate::specs::Block::layout_right, crate::specs::Block::label_in, crate::specs::Block::height_in, crate::specs::Block::rest_in))]
fn is_laid(b: &[u8; BLOCK]) -> bool
    ensures { result ≡ layout_right b.now }
{
    let height = number_at(b, HEIGHT_PLACE);
    let n = text_length(b);
    !is_zero(&b[..LABEL])
        && 1 <= height
        && height <= TOP
        && n <= MOST_TEXT
        && is_zero(&b[TEXT_PLACE + n..CHECKED])
}

// Whether the entry digest is that of the text.
fn is_digested(b: &[u8; BLOCK]) -> bool
    requires { length_in b.now ≤ most_text }
    ensures { result ≡ digest_right b.now }
{
    let end = TEXT_PLACE + text_length(b);
    hash::digest(&b[TEXT_PLACE..end]) == array_at::<DIGEST>(b, DIGEST_PLACE)
}

// Whether a block is used and not damaged.
#[tactic(auto, using(crate::proofs::Blocks::laid_length), unfolding(crate::specs::Block::sound))]
pub fn is_sound(b: &[u8; BLOCK]) -> bool
    ensures { result ≡ sound b.now }
{
    is_laid(b) && is_checked(b) && is_digested(b)
}

// Whether a block is used and damaged.
#[tactic(auto, unfolding(crate::specs::Block::unused, crate::specs::Block::damaged))]
pub fn is_damaged(b: &[u8; BLOCK]) -> bool
    ensures { result ≡ damaged b.now }
{
    !is_zero(b) && !is_sound(b)
}

// The block of a label, a height, an entry digest, a tail and a text.
pub fn made_block(
    label: [u8; LABEL],
    height: u64,
    digest: [u8; DIGEST],
    tail: [u8; TAIL],
    text: &[u8],
) -> [u8; BLOCK]
    requires { length text.now ≤ most_text }
    ensures { result ≡ block_of label height digest tail text.now }
{
    let size = text.len() as u16;
    let mut block = [0u8; BLOCK];
    copy_at(&mut block, 0, &label);
    put_number(&mut block, HEIGHT_PLACE, height);
    copy_at(&mut block, DIGEST_PLACE, &digest);
    copy_at(&mut block, TAIL_PLACE, &tail);
    copy_at(&mut block, LENGTH_PLACE, &size.to_be_bytes());
    copy_at(&mut block, TEXT_PLACE, text);
    let check = check_of(&block[..CHECKED]);
    copy_at(&mut block, CHECKED, &check);
    block
}
