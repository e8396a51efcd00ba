//! The parts of a graph besides its trail, and the work on them.
ghost use Rattle.std.specs.Prelude.{◌≡◌, ◌≢◌, ℕ, None, Some, nat_eq, All, map, slice_index, ◌<◌, ◌≤◌, ◌+◌, ◌-◌, List, [], ◌∷◌, ◌++◌, length, take, drop, IfOk, OnOk, OnErr, slice_index_or, slice_set, Bool, true, false};
ghost use Rattle.indexmap.specs.IndexMap.{set_value_at};
ghost use Rattle.term_graph.specs.Lowering.{restored, IsKept};
ghost use Rattle.term_graph.specs.Fields.{fields, undone, free, own, with_finite, slot_at, bindings_of, cut_off, with_slots, added, heads_of, mentions, mention_next, made, rebound, chosen};
ghost use Rattle.term_graph.specs.Good.{Fits, IsGood, IsInternedIn};
ghost use Rattle.term_graph.specs.Contents.{IsForest, Leads, root, IsLeader, term_at, target_of, AreUsers};
ghost use Rattle.term_graph.specs.Noting.{AreNoted, AreKeysBelow, IsRebound, IsJoined, joining};
ghost use Rattle.term_graph.specs.Keys.{is_key_of, sign_of};
ghost use Rattle.term_graph.specs.Classes.{class_at};
ghost use Rattle.std.specs.List.{AllByRecursion, position_or_len};
ghost use Rattle.term_graph.specs.declared.parts.Mention.{Mention};
ghost use Rattle.std.specs.Map.{lookup};
ghost use Rattle.index_lists.specs.Rings.{IsInside, with_cell};

use crate::Bound;
use crate::change::{Change, Join};
use crate::class::{Class, lighten, merge, weigh};
use crate::key::{Key, Lowered, add_key, find_key, note, sign_key};
use crate::term::Term;
use flat_form::Args;
use index_lists::Rings;
use indexmap::IndexMap;
use lists::NoMemory;
use smallvec::SmallVec;
use std::alloc::Global;
use tree_model::{Places, Symbol};

/// What the graph keeps of a variable. The cell is its own one, which mentions nothing.
#[derive(Clone, Copy)]
pub struct Slot {
    pub binding: Bound,
    pub finite: bool,
    pub cell: usize,
}

/// An argument of a term.
#[derive(Clone, Copy)]
pub struct Mention {
    pub term: usize,
    pub place: usize,
}

/// A cell of a variable: its own one, or one of a mention of it.
#[derive(Clone, Copy)]
pub struct Cell {
    pub variable: usize,
    pub mention: Option<Mention>,
}

#[derive(Drop)]
pub struct Parts {
    pub slots: Vec<Slot>,
    pub classes: Vec<Class>,
    pub terms: Vec<Term>,
    pub cells: Vec<Cell>,
    pub rings: Rings,
    pub table: IndexMap<Key, usize>,
    pub lowered: Vec<Lowered>,
}

// One more variable, free, alone in its ring.
fn grow(parts: &mut Parts) -> Result<(), NoMemory>
    ensures ok { OnOk result (fields parts.new ≡ added (fields parts.old)) }
    ensures err { OnErr result (fields parts.new ≡ fields parts.old) }
{
    let slot = Slot {
        binding: Bound::Free,
        finite: false,
        cell: parts.cells.len(),
    };
    let cell = Cell {
        variable: parts.slots.len(),
        mention: None,
    };
    let class = Class {
        least: parts.slots.len(),
        weight: 1,
    };
    parts.slots.push(slot)?;
    if parts.cells.push(cell).is_err() {
        parts.slots.pop();
        return Err(NoMemory);
    }
    if parts.classes.push(class).is_err() {
        parts.cells.pop();
        parts.slots.pop();
        return Err(NoMemory);
    }
    if parts.rings.new_ring().is_err() {
        parts.classes.pop();
        parts.cells.pop();
        parts.slots.pop();
        return Err(NoMemory);
    }
    Ok(())
}

/// One more variable. Where memory is short all is as before.
pub fn add(parts: &mut Parts, trail: &mut Vec<Change>) -> Result<usize, NoMemory>
    ensures number { IfOk result (λ v. v ≡ length parts.old.slots.items) }
    ensures fields { OnOk result (fields parts.new ≡ added (fields parts.old)) }
    ensures trail { OnOk result (trail.new.items ≡ trail.old.items ++ Change.Added ∷ []) }
    ensures fields_err { OnErr result (fields parts.new ≡ fields parts.old) }
    ensures trail_err { OnErr result (trail.new.items ≡ trail.old.items) }
{
    let number = parts.slots.len();
    if trail.push(Change::Added).is_err() {
        return Err(NoMemory);
    }
    if grow(parts).is_err() {
        trail.pop();
        return Err(NoMemory);
    }
    Ok(number)
}

/// Marks the variable.
pub fn mark(parts: &mut Parts, trail: &mut Vec<Change>, v: usize) -> Result<(), NoMemory>
    requires { v < length parts.old.slots.items }
    ensures fields { OnOk result (fields parts.new ≡ with_slots (slice_set parts.old.slots.items v (with_finite (slot_at parts.old.slots.items v))) (fields parts.old)) }
    ensures trail { OnOk result (trail.new.items ≡ trail.old.items ++ Change.Marked v ∷ []) }
    ensures fields_err { OnErr result (fields parts.new ≡ fields parts.old) }
    ensures trail_err { OnErr result (trail.new.items ≡ trail.old.items) }
{
    if trail.push(Change::Marked(v)).is_err() {
        return Err(NoMemory);
    }
    parts.slots[v].finite = true;
    Ok(())
}

/// Binds the variable to the term.
pub fn bind_term(
    parts: &mut Parts,
    trail: &mut Vec<Change>,
    v: usize,
    t: usize,
) -> Result<(), NoMemory>
    requires { v < length parts.old.slots.items }
    ensures fields { OnOk result (fields parts.new ≡ with_slots (rebound v (Bound.Term t) parts.old.slots.items) (fields parts.old)) }
    ensures trail { OnOk result (trail.new.items ≡ trail.old.items ++ Change.Termed v ∷ []) }
    ensures fields_err { OnErr result (fields parts.new ≡ fields parts.old) }
    ensures trail_err { OnErr result (trail.new.items ≡ trail.old.items) }
{
    if trail.push(Change::Termed(v)).is_err() {
        return Err(NoMemory);
    }
    parts.slots[v].binding = Bound::Term(t);
    Ok(())
}

/// What the variable is bound to.
pub fn binding_at(slots: &Vec<Slot>, at: usize) -> Bound
    requires { at < length slots.now.items }
    ensures { result ≡ slice_index_or (bindings_of slots.now.items) at Bound.Free }
{
    slots[at].binding
}

/// The own cell of the variable.
pub fn head_at(slots: &Vec<Slot>, at: usize) -> usize
    requires { at < length slots.now.items }
    ensures { result ≡ slice_index (heads_of slots.now.items) at }
{
    slots[at].cell
}

/// The last variable along the bindings.
pub fn root_of(slots: &Vec<Slot>, v: usize) -> usize
    requires within { v < length slots.now.items }
    requires forest { IsForest (bindings_of slots.now.items) }
    ensures within { result < length slots.now.items }
    ensures leads { Leads (bindings_of slots.now.items) v result }
{
    let mut at = v;
    while let Bound::Variable(next) = binding_at(slots, at) {
        at = next;
    }
    at
}

/// The roots of these variables.
pub fn roots_of(
    alloc: Global,
    slots: &Vec<Slot>,
    args: &[usize],
) -> Result<SmallVec<usize, 8>, NoMemory>
    requires within { All (λ x. x < length slots.now.items) args.now }
    requires forest { IsForest (bindings_of slots.now.items) }
    ensures { IfOk result (λ keys. keys.items ≡ map (root (bindings_of slots.now.items)) args.now) }
{
    let mut keys = SmallVec::new(alloc);
    for i in 0..args.len() {
        let root = root_of(slots, args[i]);
        keys.push(root)?;
    }
    Ok(keys)
}

// The same numbers as arguments.
fn args_of(alloc: Global, keys: &[usize]) -> Result<Args, NoMemory>
    ensures { IfOk result (λ args. args ≡ keys.now) }
{
    let mut args = Args::new(alloc);
    for &key in keys {
        args.push(key)?;
    }
    Ok(args)
}

// A cell more, behind this one.
fn add_mention(
    cells: &mut Vec<Cell>,
    rings: &mut Rings,
    head: usize,
    cell: Cell,
) -> Result<(), NoMemory>
    requires { head < length rings.old }
    ensures cells { OnOk result (cells.new.items ≡ cells.old.items ++ cell ∷ []) }
    ensures rings { OnOk result (rings.new ≡ with_cell head rings.old) }
    ensures cells_err { OnErr result (cells.new.items ≡ cells.old.items) }
    ensures rings_err { OnErr result (rings.new ≡ rings.old) }
{
    if cells.push(cell).is_err() {
        return Err(NoMemory);
    }
    if rings.add_cell(head).is_err() {
        cells.pop();
        return Err(NoMemory);
    }
    Ok(())
}

// A cell for each argument of the term, behind the own cell of its variable.
fn add_mentions(
    cells: &mut Vec<Cell>,
    rings: &mut Rings,
    slots: &Vec<Slot>,
    term: usize,
    args: &Args,
) -> Result<(), NoMemory>
    requires inside { IsInside rings.old }
    requires heads { AllByRecursion (λ a. (a < length slots.now.items) × (slice_index (heads_of slots.now.items) a < length rings.old)) args.now }
    ensures cells { OnOk result (cells.new.items ≡ cells.old.items ++ mentions term 0 args.now) }
    ensures rings { OnOk result (rings.new ≡ mention_next (heads_of slots.now.items) args.now rings.old) }
    ensures cells_err { OnErr result (cells.new.items ≡ cells.old.items) }
    ensures rings_err { OnErr result (rings.new ≡ rings.old) }
{
    for i in 0..args.len() {
        let variable = *args.get(i);
        let mention = Some(Mention { term, place: i });
        let cell = Cell { variable, mention };
        let head = slots[variable].cell;
        match add_mention(cells, rings, head, cell) {
            Ok(()) => {}
            Err(NoMemory) => {
                cut_cells(cells, rings, i);
                return Err(NoMemory);
            }
        }
    }
    Ok(())
}

// One term more, with its mentions and its key.
fn make(parts: &mut Parts, term: Term, key: Key) -> Result<(), NoMemory>
    requires absent { lookup (is_key_of key.sign key.args.items) parts.old.table.entries ≡ None }
    requires inside { IsInside parts.old.rings }
    requires heads { AllByRecursion (λ a. (a < length parts.old.slots.items) × (slice_index (heads_of parts.old.slots.items) a < length parts.old.rings)) term.args }
    requires classes { AllByRecursion (λ a. (a < length parts.old.classes.items) × ((class_at parts.old.classes.items a).weight ≤ length parts.old.rings)) term.args }
    ensures ok { OnOk result (fields parts.new ≡ made term key (fields parts.old)) }
    ensures err { OnErr result (fields parts.new ≡ fields parts.old) }
{
    let number = parts.terms.len();
    let count = term.args.len();
    let keys = parts.table.len();
    add_mentions(
        &mut parts.cells,
        &mut parts.rings,
        &parts.slots,
        number,
        &term.args,
    )?;
    match add_key(&mut parts.table, key, number) {
        Ok(()) => {}
        Err(NoMemory) => {
            cut_cells(&mut parts.cells, &mut parts.rings, count);
            return Err(NoMemory);
        }
    }
    match parts.terms.push(term) {
        Ok(()) => {}
        Err(_) => {
            parts.table.truncate(keys);
            cut_cells(&mut parts.cells, &mut parts.rings, count);
            return Err(NoMemory);
        }
    }
    let _cells = parts.rings.len();
    let made = &parts.terms[number];
    weigh(&mut parts.classes, &made.args);
    Ok(())
}

/// A new term under this key, which is not there.
pub fn intern(
    alloc: Global,
    parts: &mut Parts,
    trail: &mut Vec<Change>,
    symbol: Symbol,
    key: Key,
) -> Result<usize, NoMemory>
    requires absent { lookup (is_key_of key.sign key.args.items) parts.old.table.entries ≡ None }
    requires inside { IsInside parts.old.rings }
    requires heads { AllByRecursion (λ a. (a < length parts.old.slots.items) × (slice_index (heads_of parts.old.slots.items) a < length parts.old.rings)) key.args.items }
    requires classes { AllByRecursion (λ a. (a < length parts.old.classes.items) × ((class_at parts.old.classes.items a).weight ≤ length parts.old.rings)) key.args.items }
    ensures number { IfOk result (λ t. t ≡ length parts.old.terms.items) }
    ensures fields { OnOk result (fields parts.new ≡ made (record { symbol = symbol; args = key.args.items }) key (fields parts.old)) }
    ensures trail { OnOk result (trail.new.items ≡ trail.old.items ++ Change.Interned ∷ []) }
    ensures fields_err { OnErr result (fields parts.new ≡ fields parts.old) }
    ensures trail_err { OnErr result (trail.new.items ≡ trail.old.items) }
{
    let number = parts.terms.len();
    let args = args_of(alloc, key.args.as_slice())?;
    let term = Term { symbol, args };
    if trail.push(Change::Interned).is_err() {
        return Err(NoMemory);
    }
    if make(parts, term, key).is_err() {
        trail.pop();
        return Err(NoMemory);
    }
    Ok(number)
}

// The key of the symbol with the roots of these arguments.
fn key_of(alloc: Global, slots: &Vec<Slot>, symbol: Symbol, args: &[usize]) -> Result<Key, NoMemory>
    requires within { All (λ x. x < length slots.now.items) args.now }
    requires forest { IsForest (bindings_of slots.now.items) }
    ensures { IfOk result (λ key. (key.sign ≡ sign_of symbol) × (key.args.items ≡ map (root (bindings_of slots.now.items)) args.now)) }
{
    let keys = roots_of(alloc, slots, args)?;
    let sign = sign_key(symbol);
    Ok(Key { sign, args: keys })
}

/// What stands under the symbol with the roots of these arguments.
pub fn shared(
    alloc: Global,
    parts: &Parts,
    symbol: Symbol,
    args: &[usize],
) -> Result<Option<usize>, NoMemory>
    requires within { All (λ x. x < length parts.now.slots.items) args.now }
    requires good { IsGood (fields parts.now) }
    ensures { IfOk result (IsLeader (bindings_of parts.now.slots.items) parts.now.terms.items symbol (map (root (bindings_of parts.now.slots.items)) args.now)) }
{
    let key = key_of(alloc, &parts.slots, symbol, args)?;
    let found = find_key(&parts.table, &key);
    Ok(found)
}

/// The least term with this symbol and the roots of these arguments, else a new one.
pub fn share(
    alloc: Global,
    parts: &mut Parts,
    trail: &mut Vec<Change>,
    symbol: Symbol,
    args: &[usize],
) -> Result<usize, NoMemory>
    requires within { All (λ x. x < length parts.old.slots.items) args.now }
    requires good { IsGood (fields parts.old) }
    ensures ok { IfOk result (λ t. IsInternedIn (fields parts.old) (fields parts.new) trail.old.items trail.new.items symbol (map (root (bindings_of parts.old.slots.items)) args.now) t) }
    ensures fields_err { OnErr result (fields parts.new ≡ fields parts.old) }
    ensures trail_err { OnErr result (trail.new.items ≡ trail.old.items) }
{
    let key = key_of(alloc, &parts.slots, symbol, args)?;
    match find_key(&parts.table, &key) {
        Some(t) => Ok(t),
        None => intern(alloc, parts, trail, symbol, key),
    }
}

// The first place of an argument with this root.
fn first_place(slots: &Vec<Slot>, args: &[usize], class: usize) -> usize
    requires within { All (λ x. x < length slots.now.items) args.now }
    requires forest { IsForest (bindings_of slots.now.items) }
    ensures { result ≡ position_or_len (λ x. nat_eq (root (bindings_of slots.now.items) x) class) args.now }
{
    for i in 0..args.len() {
        let root = root_of(slots, args[i]);
        if root == class {
            return i;
        }
    }
    args.len()
}

// The term of the cell's mention, where it is the first of an argument with this root.
fn push_user(
    users: &mut Places,
    slots: &Vec<Slot>,
    terms: &Vec<Term>,
    class: usize,
    cell: Cell,
) -> Result<(), NoMemory>
    requires mention { (m : Mention) → cell.mention ≡ Some m → m.term < length terms.now.items }
    requires args { (t : ℕ) → t < length terms.now.items → All (λ x. x < length slots.now.items) (term_at terms.now.items t).args }
    requires forest { IsForest (bindings_of slots.now.items) }
    ensures { OnOk result (users.new ≡ users.old ++ chosen (bindings_of slots.now.items) terms.now.items class cell.mention) }
{
    match cell.mention {
        Some(mention) => {
            let first = first_place(slots, terms[mention.term].args.as_slice(), class);
            if mention.place == first {
                users.push(mention.term)?;
            }
            Ok(())
        }
        None => Ok(()),
    }
}

/// The terms that mention a variable with this root, each once.
pub fn users(alloc: Global, parts: &Parts, class: usize) -> Result<Places, NoMemory>
    requires good { IsGood (fields parts.now) }
    requires class_in { class < length parts.now.slots.items }
    requires open { target_of (bindings_of parts.now.slots.items) class ≡ None }
    ensures { IfOk result (AreUsers (bindings_of parts.now.slots.items) parts.now.terms.items class) }
{
    let head = head_at(&parts.slots, class);
    let mut users = Places::new(alloc);
    let mut at = parts.rings.next(head);
    'walk: while at != head {
        let cell = parts.cells[at];
        push_user(&mut users, &parts.slots, &parts.terms, class, cell)?;
        at = parts.rings.next(at);
    }
    Ok(users)
}

// Notes each of these terms under its key by the roots that these slots have.
fn note_all(
    alloc: Global,
    slots: &Vec<Slot>,
    terms: &Vec<Term>,
    table: &mut IndexMap<Key, usize>,
    lowered: &mut Vec<Lowered>,
    moved: &[usize],
) -> Result<(), NoMemory>
    requires within { (i : ℕ) → i < length moved.now → slice_index moved.now i < length terms.now.items }
    requires args { (t : ℕ) → t < length terms.now.items → All (λ x. x < length slots.now.items) (term_at terms.now.items t).args }
    requires forest { IsForest (bindings_of slots.now.items) }
    ensures kept { IsKept table.old.entries lowered.old.items table.new.entries lowered.new.items }
    ensures noted { OnOk result ((b : List Bound) → AreNoted b (bindings_of slots.now.items) terms.now.items table.old.entries [] → AreNoted b (bindings_of slots.now.items) terms.now.items table.new.entries moved.now) }
    ensures keys { AreKeysBelow (length (bindings_of slots.now.items)) table.old.entries → AreKeysBelow (length (bindings_of slots.now.items)) table.new.entries }
{
    for i in 0..moved.len() {
        let t = moved[i];
        let symbol = terms[t].symbol;
        let key = key_of(alloc, slots, symbol, terms[t].args.as_slice())?;
        note(table, lowered, key, t)?;
    }
    Ok(())
}

// Takes the last cells away, so many of them.
fn cut_cells(cells: &mut Vec<Cell>, rings: &mut Rings, count: usize)
    requires within { count ≤ length cells.old.items }
    requires rings { count ≤ length rings.old }
    ensures cells { cells.new.items ≡ take (length cells.old.items - count) cells.old.items }
    ensures rings { rings.new ≡ cut_off count rings.old }
{
    let keep = cells.len() - count;
    let mut left = count;
    while left > 0 {
        left -= 1;
        rings.remove_last();
    }
    cells.truncate(keep);
}

// Writes the value at a place, where there is one.
fn write_where(table: &mut IndexMap<Key, usize>, place: usize, t: usize)
    ensures { table.new.entries ≡ set_value_at table.old.entries place t }
{
    if let Some(value) = table.get_index_mut(place) {
        *value = t;
    }
}

// Takes back what was noted since the table had so many keys and so many were lowered.
fn unshare(table: &mut IndexMap<Key, usize>, lowered: &mut Vec<Lowered>, keys: usize, count: usize)
    requires { count ≤ length lowered.old.items }
    ensures entries { table.new.entries ≡ restored (drop count lowered.old.items) (take keys table.old.entries) }
    ensures lowered { lowered.new.items ≡ take count lowered.old.items }
{
    table.truncate(keys);
    while lowered.len() > count {
        if let Some(last) = lowered.pop() {
            write_where(table, last.place, last.leader);
        }
    }
}

// Another binding of the variable.
fn set_binding(slots: &mut Vec<Slot>, v: usize, to: Bound)
    requires { v < length slots.old.items }
    ensures { slots.new.items ≡ rebound v to slots.old.items }
{
    slots[v].binding = to;
}

// Binds v to the variable, and notes the moved terms under the keys that they then have.
fn rebind(
    alloc: Global,
    parts: &mut Parts,
    v: usize,
    to: usize,
    moved: &[usize],
) -> Result<(), NoMemory>
    requires v_in { v < length parts.old.slots.items }
    requires within { (i : ℕ) → i < length moved.now → slice_index moved.now i < length parts.old.terms.items }
    requires args { (t : ℕ) → t < length parts.old.terms.items → All (λ x. x < length parts.old.slots.items) (term_at parts.old.terms.items t).args }
    requires forest { IsForest (slice_set (bindings_of parts.old.slots.items) v (Bound.Variable to)) }
    ensures ok { OnOk result (IsRebound v to moved.now (fields parts.old) (fields parts.new)) }
    ensures err { OnErr result (fields parts.new ≡ fields parts.old) }
{
    let before = binding_at(&parts.slots, v);
    let keys = parts.table.len();
    let count = parts.lowered.len();
    set_binding(&mut parts.slots, v, Bound::Variable(to));
    match note_all(
        alloc,
        &parts.slots,
        &parts.terms,
        &mut parts.table,
        &mut parts.lowered,
        moved,
    ) {
        Ok(()) => {}
        Err(NoMemory) => {
            unshare(&mut parts.table, &mut parts.lowered, keys, count);
            set_binding(&mut parts.slots, v, before);
            return Err(NoMemory);
        }
    }
    Ok(())
}

/// Binds the root v to the variable, and joins its ring to that of the variable's root.
pub fn join(
    alloc: Global,
    parts: &mut Parts,
    trail: &mut Vec<Change>,
    v: usize,
    to: usize,
    root: usize,
) -> Result<(), NoMemory>
    requires good { IsGood (fields parts.old) }
    requires v_in { v < length parts.old.slots.items }
    requires to_in { to < length parts.old.slots.items }
    requires root_in { root < length parts.old.slots.items }
    requires open { target_of (bindings_of parts.old.slots.items) v ≡ None }
    requires leads { Leads (bindings_of parts.old.slots.items) to root }
    requires apart { root ≢ v }
    ensures fields { OnOk result (IsJoined v to root (fields parts.old) (fields parts.new)) }
    ensures trail { OnOk result (trail.new.items ≡ trail.old.items ++ Change.Joined (joining v root (fields parts.old)) ∷ []) }
    ensures fields_err { OnErr result (fields parts.new ≡ fields parts.old) }
    ensures trail_err { OnErr result (trail.new.items ≡ trail.old.items) }
{
    let variable_head = head_at(&parts.slots, v);
    let root_head = head_at(&parts.slots, root);
    let before = binding_at(&parts.slots, v);
    let class = parts.classes[v];
    let root_class = parts.classes[root];
    let keys = parts.table.len();
    let lowered = parts.lowered.len();
    let moved = users(alloc, parts, v)?;
    let cut = parts.rings.splice(root_head, variable_head);
    let join = Join {
        variable: v,
        root,
        before,
        class,
        root_class,
        cut,
        keys,
        lowered,
    };
    match trail.push(Change::Joined(join)) {
        Ok(()) => {}
        Err(_) => {
            parts.rings.unsplice(cut);
            return Err(NoMemory);
        }
    }
    match rebind(alloc, parts, v, to, moved.as_slice()) {
        Ok(()) => {}
        Err(NoMemory) => {
            parts.rings.unsplice(cut);
            trail.pop();
            return Err(NoMemory);
        }
    }
    let _cells = parts.rings.len();
    merge(&mut parts.classes, v, root);
    Ok(())
}

/// Takes a change back. It takes no memory.
pub fn take_back(parts: &mut Parts, change: Change)
    requires { Fits change (fields parts.old) }
    ensures { fields parts.new ≡ undone change (fields parts.old) }
{
    match change {
        Change::Added => {
            parts.slots.pop();
            parts.classes.pop();
            parts.cells.pop();
            parts.rings.remove_last();
        }
        Change::Interned => {
            if let Some(term) = parts.terms.pop() {
                lighten(&mut parts.classes, &term.args);
                cut_cells(&mut parts.cells, &mut parts.rings, term.args.len());
            }
            parts.table.pop();
        }
        Change::Termed(v) => parts.slots[v].binding = Bound::Free,
        Change::Joined(join) => {
            parts.slots[join.variable].binding = join.before;
            parts.classes[join.root] = join.root_class;
            parts.rings.unsplice(join.cut);
            unshare(
                &mut parts.table,
                &mut parts.lowered,
                join.keys,
                join.lowered,
            );
        }
        Change::Marked(v) => parts.slots[v].finite = false,
    }
}
