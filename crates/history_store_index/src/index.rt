ghost use Rattle.std.specs.Prelude.{◌≡◌, ◌+◌, ◌-◌, ◌/◌, ◌<◌, ◌≤◌, ◌^◌, ◌++◌, ◌∷◌, ◌==◌, ℕ, true};
ghost use Rattle.std.specs.Prelude.{[], length, All, IfOk, OnOk, take, drop, slice_index};
ghost use Rattle.std.specs.Prelude.{slice_index_or, vec_len, vec_capacity};
ghost use Rattle.std.specs.List.{insert, remove, concat};
ghost use Rattle.history_store_index.specs.Blocks.{block_size, half_size, before, filled, ids_left};
ghost use Rattle.history_store_index.specs.Blocks.{blocks_left, IsCounted};

use prima_base::{NoMemory, push_all_reserved};
use std::alloc::Global;
use std::marker::Model;

/// How many ids a block has at most.
const BLOCK_SIZE: usize = 256;

/// How many ids each half of a full block has.
const HALF_SIZE: usize = 128;

/// Ids in an order, at most [`BLOCK_SIZE`], with room for as many.
#[derive(Drop)]
struct Block {
    ids: Vec<usize>,
}

impl Model for Block {
    ghost use Rattle.std.specs.Prelude.{List, ℕ};

    ghost Value = { List ℕ };

    ghost use Rattle.history_store_index.specs.Blocks.{IsBlock};

    ghost view = { λ b. b.ids.items };

    ghost invariant = { IsBlock };
}

impl Block {
    // A block of these ids.
    fn of(alloc: Global, ids: &[usize]) -> Result<Block, NoMemory>
        requires { length ids.now ≤ block_size }
        ensures { IfOk result (λ b. b ≡ ids.now) }
    {
        let mut room = Vec::with_capacity(alloc, BLOCK_SIZE)?;
        room.extend_from_slice(ids)?;
        Ok(Block { ids: room })
    }

    // The ids.
    fn ids(&self) -> &[usize]
        ensures ids { result.now ≡ self.now }
        ensures few { length self.now ≤ block_size }
    {
        &self.ids
    }

    // The id at this place.
    fn id(&self, at: usize) -> usize
        requires { at < length self.now }
        ensures { result ≡ slice_index self.now at }
    {
        self.ids[at]
    }

    // How many ids there are.
    fn len(&self) -> usize
        ensures len { result ≡ length self.now }
        ensures few { length self.now ≤ block_size }
    {
        self.ids.len()
    }

    // Puts the id at this place.
    fn insert(&mut self, at: usize, id: usize)
        requires room { length self.old < block_size }
        requires within { at ≤ length self.old }
        ensures { self.new ≡ insert self.old at id }
    {
        insert_reserved(&mut self.ids, at, id);
    }

    // Takes out the id at this place.
    fn remove(&mut self, at: usize) -> usize
        requires { at < length self.old }
        ensures id { result ≡ slice_index self.old at }
        ensures ids { self.new ≡ remove self.old at }
    {
        self.ids.remove(at)
    }

    // Keeps the first half of the ids; the others go into an empty block.
    fn split(&mut self, mut upper: Block) -> Block
        requires { upper ≡ [] }
        ensures whole { self.new ++ result ≡ self.old }
        ensures half { length self.new ≡ length self.old / 2 }
        ensures few { length self.old ≤ block_size }
    {
        let half = self.ids.len() / 2;
        push_all_reserved(&mut upper.ids, self.ids.split_at(half).1);
        self.ids.truncate(half);
        upper
    }

    // Puts the id at this place of a full block, and what is after the middle into an empty block.
    fn insert_split(&mut self, at: usize, id: usize, spare: Block) -> Block
        requires spare { spare ≡ [] }
        requires full { block_size ≤ length self.old }
        requires within { at ≤ length self.old }
        ensures whole { self.new ++ result ≡ insert self.old at id }
        ensures lower { half_size ≤ length self.new }
        ensures upper { half_size ≤ length result }
    {
        let mut upper = self.split(spare);
        let half = self.len();
        if at <= half {
            self.insert(at, id);
            return upper;
        }
        upper.insert(at - half, id);
        upper
    }
}

// Puts the item at this place. It takes no memory.
fn insert_reserved<T: Drop>(items: &mut Vec<T>, at: usize, item: T)
    requires room { vec_len items.old < vec_capacity items.old }
    requires within { at ≤ vec_len items.old }
    ensures items { items.new.items ≡ insert items.old.items at item }
    ensures len { vec_len items.new ≡ vec_len items.old + 1 }
    ensures capacity { vec_capacity items.new ≡ vec_capacity items.old }
{
    // There is room, so nothing can fail.
    let _ = items.insert(at, item);
}

/// Ids in an order, in blocks.
pub struct RowIndex {
    alloc: Global,
    blocks: Vec<Block>,
    starts: Vec<usize>,
    spare: Vec<Block>,
    count: usize,
}

// Written out, not derived: each crate above would prove a derived one again.
impl Drop for RowIndex {
    fn drop(self) {
        let RowIndex {
            alloc: _alloc,
            blocks: _blocks,
            starts: _starts,
            spare: _spare,
            count: _count,
        } = self;
    }
}

impl Model for RowIndex {
    ghost use Rattle.history_store_index.specs.Blocks.{Ids};

    ghost Value = { Ids };

    ghost use Rattle.history_store_index.specs.Blocks.{ids_view, IsIndex};

    ghost view = { ids_view };

    ghost invariant = { IsIndex };
}

// Whether the place is in this block, or after it where it is the last one.
fn is_in_block(starts: &[usize], at: usize, block: usize) -> bool
    ensures { result ≡ true → (block < length starts.now) × (slice_index starts.now block ≤ at)
        × (block + 1 < length starts.now → at < slice_index starts.now (block + 1)) }
{
    if block >= starts.len() || starts[block] > at {
        return false;
    }
    block + 1 >= starts.len() || at < starts[block + 1]
}

// The last block that begins at the place or before it, found by binary search.
fn find_block(starts: &[usize], at: usize) -> usize
    requires some { 0 < length starts.now }
    requires first { slice_index starts.now 0 ≡ 0 }
    ensures within { result < length starts.now }
    ensures from { slice_index starts.now result ≤ at }
    ensures next { result + 1 < length starts.now → at < slice_index starts.now (result + 1) }
{
    let mut low = 0;
    let mut high = starts.len();
    'halves: while high - low > 1 {
        let middle = low + (high - low) / 2;
        if starts[middle] <= at {
            low = middle;
        } else {
            high = middle;
        }
    }
    low
}

// The same, where it is often the block of the place before.
fn block_at(starts: &[usize], at: usize, near: usize) -> usize
    requires some { 0 < length starts.now }
    requires first { slice_index starts.now 0 ≡ 0 }
    ensures within { result < length starts.now }
    ensures from { slice_index starts.now result ≤ at }
    ensures next { result + 1 < length starts.now → at < slice_index starts.now (result + 1) }
{
    if is_in_block(starts, at, near) {
        return near;
    }
    find_block(starts, at)
}

// The block in which this place among all is, or after which it is, and the place in it. The block
// near which it is looked for first decides nothing.
fn place_at(blocks: &[Block], starts: &[usize], at: usize, near: usize) -> (usize, usize)
    requires some { 0 < length blocks.now }
    requires counted { IsCounted starts.now blocks.now }
    requires within { at ≤ length (concat blocks.now) }
    ensures block { result.0 < length blocks.now }
    ensures place { at ≡ before result.0 blocks.now + result.1 }
    ensures inside { result.1 ≤ length (slice_index_or blocks.now result.0 []) }
    ensures within { at < length (concat blocks.now)
        → result.1 < length (slice_index_or blocks.now result.0 []) }
{
    let block = block_at(starts, at, near);
    (block, at - starts[block])
}

// Counts again how many ids stand before each block from this one on.
fn recount(blocks: &[Block], starts: &mut Vec<usize>, from: usize)
    requires some { 0 < from }
    requires long { vec_len starts.old ≡ length blocks.now }
    requires counted { (k : ℕ) → k < from → k < length blocks.now
        → slice_index starts.old.items k ≡ before k blocks.now }
    requires few { length (concat blocks.now) < 2 ^ 64 }
    ensures counted { IsCounted starts.new.items blocks.now }
    ensures len { vec_len starts.new ≡ vec_len starts.old }
    ensures capacity { vec_capacity starts.new ≡ vec_capacity starts.old }
{
    for k in from..blocks.len() {
        starts[k] = starts[k - 1] + blocks[k - 1].len();
    }
}

// Puts the id at this place among all. It takes no memory.
fn put_id(
    blocks: &mut Vec<Block>,
    starts: &mut Vec<usize>,
    spare: &mut Vec<Block>,
    at: usize,
    id: usize,
)
    requires some { 0 < length blocks.old.items }
    requires counted { IsCounted starts.old.items blocks.old.items }
    requires within { at ≤ length (concat blocks.old.items) }
    requires few { length (concat blocks.old.items) + 1 < 2 ^ 64 }
    requires empty { All (λ b. b ≡ []) spare.old.items }
    requires room { 0 < vec_len spare.old }
    requires block_room { vec_len blocks.old < vec_capacity blocks.old }
    requires start_room { vec_len starts.old < vec_capacity starts.old }
    ensures some { 0 < length blocks.new.items }
    ensures ids { concat blocks.new.items ≡ insert (concat blocks.old.items) at id }
    ensures counted { IsCounted starts.new.items blocks.new.items }
    ensures empty { All (λ b. b ≡ []) spare.new.items }
    ensures left { ids_left (blocks_left (vec_len spare.old)
        (vec_capacity blocks.old - vec_len blocks.old)
        (vec_capacity starts.old - vec_len starts.old)) blocks.old.items
        ≤ ids_left (blocks_left (vec_len spare.new) (vec_capacity blocks.new - vec_len blocks.new)
        (vec_capacity starts.new - vec_len starts.new)) blocks.new.items + 1 }
{
    let (block, place) = place_at(blocks, starts, at, 0);
    if blocks[block].len() < BLOCK_SIZE {
        blocks[block].insert(place, id);
        recount(blocks, starts, block + 1);
        return;
    }
    let upper = blocks[block].insert_split(place, id, spare.take_last());
    insert_reserved(blocks, block + 1, upper);
    insert_reserved(starts, block + 1, 0);
    recount(blocks, starts, block + 1);
}

// Whether the block is empty, and not the only one.
fn is_needless(blocks: &[Block], block: usize) -> bool
    requires { block < length blocks.now }
    ensures { result ≡ true → (slice_index_or blocks.now block [] ≡ []) × (1 < length blocks.now) }
{
    blocks[block].len() == 0 && blocks.len() > 1
}

// Takes out the id at this place among all. A block that gets empty goes, but for the only one.
fn take_id(blocks: &mut Vec<Block>, starts: &mut Vec<usize>, at: usize) -> usize
    requires counted { IsCounted starts.old.items blocks.old.items }
    requires within { at < length (concat blocks.old.items) }
    requires few { length (concat blocks.old.items) < 2 ^ 64 }
    ensures id { result ≡ slice_index (concat blocks.old.items) at }
    ensures some { 0 < length blocks.new.items }
    ensures ids { concat blocks.new.items ≡ remove (concat blocks.old.items) at }
    ensures counted { IsCounted starts.new.items blocks.new.items }
    ensures filled { filled blocks.new.items ≤ filled blocks.old.items }
    ensures room { vec_capacity blocks.old - vec_len blocks.old ≤ vec_capacity blocks.new - vec_len
        blocks.new }
    ensures start_room { vec_capacity starts.old - vec_len starts.old ≤ vec_capacity
        starts.new - vec_len starts.new }
{
    let (block, place) = place_at(blocks, starts, at, 0);
    let id = blocks[block].remove(place);
    if is_needless(blocks, block) {
        blocks.remove(block);
        starts.take_last();
        recount(blocks, starts, block + 1);
        return id;
    }
    recount(blocks, starts, block + 1);
    id
}

// Blocks of these ids, half full but for the last: one at least.
fn cut(alloc: Global, ids: &[usize]) -> Result<Vec<Block>, NoMemory>
    ensures some { IfOk result (λ blocks. 0 < length blocks.items) }
    ensures ids { IfOk result (λ blocks. concat blocks.items ≡ ids.now) }
{
    let mut blocks = Vec::new(alloc);
    let mut rest = ids;
    'cut: while blocks.is_empty() || !rest.is_empty() {
        let (prefix, back) = rest.split_at(rest.len().min(HALF_SIZE));
        blocks.push(Block::of(alloc, prefix)?)?;
        rest = back;
    }
    Ok(blocks)
}

// How many ids stand before each block.
fn count(alloc: Global, blocks: &[Block]) -> Result<Vec<usize>, NoMemory>
    requires few { length (concat blocks.now) < 2 ^ 64 }
    ensures { IfOk result (λ starts. IsCounted starts.items blocks.now) }
{
    let mut starts = Vec::from_elem(alloc, 0, blocks.len())?;
    recount(blocks, &mut starts, 1);
    Ok(starts)
}

// Empty blocks, so many at least.
fn fill_spare(alloc: Global, spare: &mut Vec<Block>, count: usize) -> Result<(), NoMemory>
    requires { All (λ b. b ≡ []) spare.old.items }
    ensures empty { All (λ b. b ≡ []) spare.new.items }
    ensures kept { vec_len spare.old ≤ vec_len spare.new }
    ensures count { OnOk result (count ≤ vec_len spare.new) }
{
    for k in spare.len()..count {
        spare.push(Block::of(alloc, &[])?)?;
    }
    Ok(())
}

// How many ids the blocks have above half their size.
fn count_filled(blocks: &[Block]) -> usize
    requires few { length (concat blocks.now) < 2 ^ 64 }
    ensures { result ≡ filled blocks.now }
{
    let mut filled = 0;
    for block in blocks {
        filled += block.len().saturating_sub(HALF_SIZE);
    }
    filled
}

// How many blocks more are enough for so many ids more, where so many are spare.
fn blocks_for(blocks: &[Block], spare: usize, more: usize) -> usize
    requires few { length (concat blocks.now) + more < 2 ^ 64 }
    ensures { more ≤ ids_left result blocks.now }
{
    if more <= spare {
        return more;
    }
    more.min((count_filled(blocks) + more) / HALF_SIZE + 1)
}

impl RowIndex {
    /// These ids in their order.
    pub fn of(alloc: Global, ids: &[usize]) -> Result<RowIndex, NoMemory>
        ensures { IfOk result (λ index. index.ids ≡ ids.now) }
    {
        let blocks = cut(alloc, ids)?;
        let starts = count(alloc, &blocks)?;
        Ok(RowIndex {
            alloc,
            blocks,
            starts,
            spare: Vec::new(alloc),
            count: ids.len(),
        })
    }

    /// How many ids there are.
    pub fn len(&self) -> usize
        ensures { result ≡ length self.now.ids }
    {
        self.count
    }

    /// The id at this place. It is found by binary search over the blocks.
    pub fn id_at(&self, at: usize) -> usize
        requires { at < length self.now.ids }
        ensures { result ≡ slice_index self.now.ids at }
    {
        let mut near = 0;
        self.id_near(at, &mut near)
    }

    /// The same, at once where it is in the block of the id that was looked for last.
    pub fn id_near(&self, at: usize, near: &mut usize) -> usize
        requires { at < length self.now.ids }
        ensures { result ≡ slice_index self.now.ids at }
    {
        let (block, place) = place_at(&self.blocks, &self.starts, at, *near);
        *near = block;
        self.blocks[block].id(place)
    }

    /// All ids, copied.
    pub fn copy(&self) -> Result<Vec<usize>, NoMemory>
        ensures { IfOk result (λ ids. ids.items ≡ self.now.ids) }
    {
        let mut ids = Vec::with_capacity(self.alloc, self.count)?;
        for block in &self.blocks {
            ids.extend_from_slice(block.ids())?;
        }
        Ok(ids)
    }

    /// Makes room for so many ids more, at any places.
    pub fn reserve(&mut self, more: usize) -> Result<(), NoMemory>
        ensures ids { self.new.ids ≡ self.old.ids }
        ensures kept { self.old.room ≤ self.new.room }
        ensures room { OnOk result (more ≤ self.new.room) }
    {
        // An index has fewer than 2^64 ids: more are refused as out of memory.
        if usize::MAX - self.count < more {
            return Err(NoMemory);
        }
        let blocks = blocks_for(&self.blocks, self.spare.len(), more);
        self.blocks.reserve(blocks)?;
        self.starts.reserve(blocks)?;
        fill_spare(self.alloc, &mut self.spare, blocks)
    }

    /// Puts the id at this place. It takes no memory.
    pub fn insert(&mut self, at: usize, id: usize)
        requires room { 0 < self.old.room }
        requires within { at ≤ length self.old.ids }
        ensures ids { self.new.ids ≡ insert self.old.ids at id }
        ensures room { self.old.room ≤ self.new.room + 1 }
    {
        put_id(&mut self.blocks, &mut self.starts, &mut self.spare, at, id);
        self.count += 1;
    }

    /// Takes out the id at this place. It takes no memory.
    pub fn remove(&mut self, at: usize) -> usize
        requires { at < length self.old.ids }
        ensures id { result ≡ slice_index self.old.ids at }
        ensures ids { self.new.ids ≡ remove self.old.ids at }
        ensures room { self.old.room ≤ self.new.room }
    {
        let id = take_id(&mut self.blocks, &mut self.starts, at);
        self.count -= 1;
        id
    }
}
