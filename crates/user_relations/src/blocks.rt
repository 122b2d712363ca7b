//! Rows of bits in blocks. A block that copies share is copied once one of them changes it.
ghost use Rattle.std.specs.Prelude.{◌≡◌, ◌≢◌, ◌<◌, ◌≤◌, ◌+◌, ◌/◌, ◌%◌, ◌==◌, ◌&&◌, ◌||◌, not};
ghost use Rattle.std.specs.Prelude.{nat_lt, is_some, ℕ, [], length, replicate, IfOk, OnOk, OnErr};
ghost use Rattle.std.specs.Prelude.{MatchOption, IsTrue, false};
ghost use Rattle.std.specs.FinSet as set;
ghost use Rattle.basics.specs.Laws.Pairs.{IsAscending};
ghost use Rattle.wf_names.specs.declared.limits.TheConstants.{USER_LIMIT};
ghost use Rattle.wf_names.specs.UserSets.{has_user};
ghost use Rattle.user_relations.specs.declared.blocks.TheConstants.{BLOCKS, BLOCK_ROWS};
ghost use Rattle.user_relations.specs.Rows.{block_bit, row_bit, written, pairs_in, AreListedTo};

use basics::{Copied, Shared};
use std::alloc::{AllocError, Global};
use wf_names::{USER_LIMIT, UserId, UserSet};

/// How many bytes a change copies of the rows each way.
const BLOCK_BYTES: usize = 16_384;
/// How many rows a block has.
const BLOCK_ROWS: usize = BLOCK_BYTES * 8 / USER_LIMIT as usize;
/// How many blocks have a row for each user.
pub(crate) const BLOCKS: usize = USER_LIMIT as usize / BLOCK_ROWS;

/// The rows of `BLOCK_ROWS` users whose numbers follow each other: with each user, a set of users.
#[derive(Clone, Copy)]
pub(crate) struct Block {
    rows: [UserSet; BLOCK_ROWS],
}

impl Copied for Block {
    ghost equal = { λ x y h. h };
}

/// Rows without a bit, which share one block.
pub(crate) fn no_bits(alloc: Global) -> Result<Vec<Shared<Block>>, AllocError>
    ensures whole { IfOk result (λ blocks. length blocks.items ≡ BLOCKS) }
    ensures none { IfOk result (λ blocks. (u v : ℕ) → row_bit blocks.items u v ≡ false) }
{
    let block = empty_block(alloc)?;
    repeat(alloc, &block, BLOCKS)
}

fn empty_block(alloc: Global) -> Result<Shared<Block>, AllocError>
    ensures { IfOk result (λ block. (k v : ℕ) → block_bit block k v ≡ false) }
{
    let block = Block {
        rows: [UserSet::empty(); BLOCK_ROWS],
    };
    Shared::new(alloc, block)
}

/// The bit of a row.
pub(crate) fn has(blocks: &[Shared<Block>], u: UserId, v: UserId) -> bool
    ensures bit { result ≡ row_bit blocks.now u v }
    ensures within { IsTrue result → v < USER_LIMIT }
{
    match row_at(blocks, u) {
        Some(row) => row.has(v),
        None => false,
    }
}

/// The users of a row.
pub(crate) fn row(blocks: &[Shared<Block>], u: UserId) -> UserSet
    ensures { (v : ℕ) → has_user result v ≡ row_bit blocks.now u v }
{
    match row_at(blocks, u) {
        Some(row) => *row,
        None => UserSet::empty(),
    }
}

/// The row of a user in place; None where there is none.
pub(crate) fn row_at(blocks: &[Shared<Block>], u: UserId) -> Option<&UserSet>
    ensures there { is_some result ≡ nat_lt (u / BLOCK_ROWS) (length blocks.now) }
    ensures users { MatchOption result ((v : ℕ) → row_bit blocks.now u v ≡ false)
        (λ row. (v : ℕ) → has_user row.now v ≡ row_bit blocks.now u v) }
{
    match blocks.get(u.0 as usize / BLOCK_ROWS) {
        Some(block) => Some(&block.get().rows[u.0 as usize % BLOCK_ROWS]),
        None => None,
    }
}

// Shares of a block without bits.
fn repeat(
    alloc: Global,
    block: &Shared<Block>,
    count: usize,
) -> Result<Vec<Shared<Block>>, AllocError>
    requires none { (k v : ℕ) → block_bit block.now k v ≡ false }
    ensures whole { IfOk result (λ blocks. length blocks.items ≡ count) }
    ensures none { IfOk result (λ blocks. (u v : ℕ) → row_bit blocks.items u v ≡ false) }
{
    let mut blocks = Vec::with_capacity(alloc, count)?;
    'shares: for _ in 0..count {
        blocks.push(block.share()?)?;
    }
    Ok(blocks)
}

/// The same rows.
pub(crate) fn copy(
    alloc: Global,
    blocks: &[Shared<Block>],
) -> Result<Vec<Shared<Block>>, AllocError>
    ensures { IfOk result (λ copies. copies.items ≡ blocks.now) }
{
    let mut copies = Vec::with_capacity(alloc, blocks.len())?;
    'copying: for block in blocks {
        copies.push(block.share()?)?;
    }
    Ok(copies)
}

/// Sets bit v of row u ahead and bit u of row v behind, or clears both.
pub(crate) fn write(
    ahead: &mut [Shared<Block>],
    behind: &mut [Shared<Block>],
    u: UserId,
    v: UserId,
    bit: bool,
) -> Result<(), AllocError>
    requires users { (u < USER_LIMIT) × (v < USER_LIMIT) }
    requires ahead_whole { length ahead.old ≡ BLOCKS }
    requires behind_whole { length behind.old ≡ BLOCKS }
    ensures ahead { OnOk result ((x y : ℕ)
        → row_bit ahead.new x y ≡ written bit (x == u && y == v) (row_bit ahead.old x y)) }
    ensures behind { OnOk result ((y x : ℕ)
        → row_bit behind.new y x ≡ written bit (y == v && x == u) (row_bit behind.old y x)) }
    ensures unchanged { OnErr result ((ahead.new ≡ ahead.old) × (behind.new ≡ behind.old)) }
{
    let there = &mut ahead[u.0 as usize / BLOCK_ROWS];
    let back = &mut behind[v.0 as usize / BLOCK_ROWS];
    write_both(there, back, u, v, bit)
}

fn write_both(
    ahead: &mut Shared<Block>,
    behind: &mut Shared<Block>,
    u: UserId,
    v: UserId,
    bit: bool,
) -> Result<(), AllocError>
    requires users { (u < USER_LIMIT) × (v < USER_LIMIT) }
    ensures ahead { OnOk result ((k y : ℕ)
        → block_bit ahead.new k y
        ≡ written bit (k == u % BLOCK_ROWS && y == v) (block_bit ahead.old k y)) }
    ensures behind { OnOk result ((k x : ℕ)
        → block_bit behind.new k x
        ≡ written bit (k == v % BLOCK_ROWS && x == u) (block_bit behind.old k x)) }
    ensures unchanged { OnErr result ((ahead.new ≡ ahead.old) × (behind.new ≡ behind.old)) }
{
    let there = ahead.edit()?;
    let back = behind.edit()?;
    write_row(&mut there.rows[u.0 as usize % BLOCK_ROWS], v, bit);
    write_row(&mut back.rows[v.0 as usize % BLOCK_ROWS], u, bit);
    Ok(())
}

fn write_row(row: &mut UserSet, v: UserId, bit: bool)
    requires { v < USER_LIMIT }
    ensures { (y : ℕ) → has_user row.new y ≡ written bit (y == v) (has_user row.old y) }
{
    if bit {
        row.insert(v);
    } else {
        row.remove(v);
    }
}

/// The pairs of each row's number and the users of the row, in ascending order.
pub(crate) fn pairs(
    blocks: &[Shared<Block>],
    mut pairs: Vec<(u16, u16)>,
) -> Result<Vec<(u16, u16)>, AllocError>
    requires { pairs.items ≡ [] }
    ensures pairs { IfOk result (λ pairs. set.from_list pairs.items ≡ pairs_in blocks.now) }
    ensures ascending { IfOk result (λ pairs. IsAscending pairs.items) }
{
    let everyone = UserSet::up_to(USER_LIMIT);
    'rows: for u in 0..USER_LIMIT {
        let mut users = row(blocks, UserId(u));
        users.meet(&everyone);
        add_row(&mut pairs, blocks, u, &users)?;
    }
    Ok(pairs)
}

// Adds the pairs of a row.
fn add_row(
    pairs: &mut Vec<(u16, u16)>,
    blocks: &[Shared<Block>],
    u: u16,
    row: &UserSet,
) -> Result<(), AllocError>
    requires listed { AreListedTo blocks.now u 0 pairs.old.items }
    requires row { (v : ℕ) → has_user row.now v ≡ (row_bit blocks.now u v && nat_lt v USER_LIMIT) }
    ensures { OnOk result (AreListedTo blocks.now (u + 1) 0 pairs.new.items) }
{
    let mut from = 0;
    'users: while let Some(v) = row.next(from) {
        pairs.push((u, v.0))?;
        from = v.0 as u32 + 1;
    }
    Ok(())
}
