//! The heap.
#![tactic(auto, unfolding(crate::specs::Heap::memory, crate::specs::Heap::given, crate::specs::Heap::key_count))]

ghost use Rattle.std.specs.Prelude.{◌≡◌, ◌↔◌, ◌+◌, ◌<◌, ◌≤◌, ℕ, [], ◌∷◌, ◌++◌, length, None, Some, Ok, Err, IsSome, IfSome, IfOk, OnOk, IfErr, OnErr, MatchOption};
ghost use Rattle.std.specs.Option.{option_map, option_copied};
ghost use Rattle.kt_mem.specs.declared.memory.Name.TheVariants as name;
ghost use Rattle.kt_mem.specs.declared.memory.Value.TheVariants as value;
ghost use Rattle.kt_mem.specs.Memory.{no_objects, load, store, release, made, without, fresh_object, alloc_fault};
ghost use Rattle.kt_heap.specs.Objects.{shown};
ghost use Rattle.kt_heap.specs.Heap.{memory, given, Paired, IsNew, AreAllLive, key_count, AreOneToOne, IsPairing, IsLiveAt, TakesKey, number_at, with_object, with_added, with_placed, place_address, fault_trap};
ghost use Rattle.kt_heap.specs.Keys.{key_of, generation_of};

use crate::faults::AllocFault;
use crate::keyed::Keyed;
use crate::literals::Literals;
use crate::numbered::Numbered;
use crate::object::{Obj, fresh_cells};
use kt_mem::{Cell, Name, Trap, Value, defined};
use kt_types::Ty;
use std::alloc::{AllocError, Global};
use std::collections::HashMap;
use std::marker::Model;

/// How many cells an allocation may have.
const OBJECT_LIMIT: u64 = 65_536;

/// How many cells the live heap objects may have together.
const LIVE_LIMIT: u64 = 4_194_304;

/// Globals, literals and heap objects.
///
/// An address of a heap object is given out once.
#[derive(Drop)]
pub struct Heap {
    globals: Numbered,
    literals: Literals,
    objects: Keyed,
    // The address of each live heap object, by its heap number.
    numbers: HashMap<u64, u64>,
    // The next heap number.
    next: u64,
    // The cells of the live heap objects.
    live: u64,
    // Each address that was given out, with its heap number.
    given: Vec<(u64, u64)>,
}

impl Model for Heap {
    ghost use Rattle.kt_heap.specs.Heap.{State};

    ghost Value = { State };

    ghost use Rattle.kt_heap.specs.Inside.{state_of, IsHeap, HasNumbers};
    ghost use Rattle.std.specs.Prelude.{◌==◌};
    ghost use Rattle.std.specs.HashMap.{get};

    ghost view = { state_of };

    ghost invariant = { λ h. IsHeap (state_of h) × HasNumbers (get (λ n k. n == k) h.numbers) (state_of h) };
}

impl Heap {
    /// No object. The next heap number is `next`.
    pub fn new(alloc: Global, next: u64) -> Heap
        ensures empty { memory result ≡ record { at = no_objects; next = next; live = 0 } }
        ensures pairs { given result ≡ [] }
        ensures keys { key_count result ≡ 0 }
    {
        Heap {
            globals: Numbered::new(alloc),
            literals: Literals::new(alloc),
            objects: Keyed::new(alloc),
            numbers: HashMap::new(alloc),
            next,
            live: 0,
            given: Vec::new(alloc),
        }
    }

    /// The heap number of the next allocation.
    pub fn next(&self) -> u64
        ensures { result ≡ (memory self.now).next }
    {
        self.next
    }

    /// How many addresses were given out.
    pub fn given(&self) -> u64
        ensures { result ≡ length (given self.now) }
    {
        self.given.len() as u64
    }

    /// How many keys were made. Each live heap object's key is below.
    pub fn slots(&self) -> u32
        ensures count { result ≡ key_count self.now }
        ensures above { (a : ℕ) → IsSome ((memory self.now).at (name.Heap a)) → key_of a < result }
    {
        self.objects.keys()
    }

    /// The address of the live heap object at a key: none where there is none.
    pub fn at_key(&self, key: u32) -> Option<u64>
        ensures { (a : ℕ) → (result ≡ Some a) ↔ IsLiveAt (memory self.now) key a }
    {
        self.objects.at_key(key)
    }

    /// The pairs of addresses and heap numbers are one to one, and each live heap object is at the address of its number.
    pub fn law(&self)
        ensures pairing { IsPairing (given self.now) (memory self.now) }
        ensures once { AreOneToOne (given self.now) }
    {
        let _ = &self.next;
    }

    /// Makes a heap object of `count` elements at an address that was never given out: `ty` is the place of the element
    /// type, `cells` the cell types of one element (ISO/IEC 9899:2011, 7.22.3).
    pub fn alloc(
        &mut self,
        ty: u32,
        cells: &[Ty],
        count: u32,
        zero: bool,
    ) -> Result<u64, AllocFault>
        requires some_cell { 1 ≤ length cells.now }
        requires cell_limit { length cells.now ≤ 65536 }
        requires numbers { (memory self.old).next < 9223372036854775807 }
        requires addresses { length (given self.old) < 4294967296 }
        ensures made { IfOk result (λ a. memory self.new ≡ made (memory self.old) a (fresh_object (memory self.old).next ty cells.now count zero)) }
        ensures generation { IfOk result (λ a. generation_of a ≡ length (given self.old)) }
        ensures key { IfOk result (λ a. TakesKey (memory self.old) (key_count self.old) (key_count self.new) a) }
        ensures pair { IfOk result (λ a. given self.new ≡ given self.old ++ (a, (memory self.old).next) ∷ []) }
        ensures fresh { IfOk result (λ a. IsNew (given self.old) a) }
        ensures unused { IfOk result (λ a. (memory self.old).at (name.Heap a) ≡ None) }
        ensures room { OnOk result (alloc_fault (memory self.old) (length cells.now) count ≡ None) }
        ensures fault { IfErr result (λ e. alloc_fault (memory self.old) (length cells.now) count ≡ fault_trap e) }
        ensures kept { OnErr result (memory self.new ≡ memory self.old) }
        ensures pairs_kept { OnErr result (given self.new ≡ given self.old) }
        ensures keys_kept { OnErr result (key_count self.new ≡ key_count self.old) }
    {
        if let Some(fault) = self.fault(cells.len(), count) {
            return Err(fault);
        }
        let cells = match fresh_cells(*self.given.allocator(), cells, count, zero) {
            Err(_) => return Err(AllocFault::NoMemory),
            Ok(cells) => cells,
        };
        let serial = self.next;
        let obj = Obj {
            ty,
            count,
            serial,
            cells,
        };
        match self.add(obj, serial + 1) {
            Err(_) => Err(AllocFault::NoMemory),
            Ok(a) => Ok(a),
        }
    }

    /// Ends the heap object that starts at a pointer. Nothing happens to null: `dead`, and `free` where the pointer is not
    /// to the start of a heap object (ISO/IEC 9899:2011, 7.22.3.3).
    pub fn free(&mut self, p: Value) -> Result<(), Trap>
        ensures freed { OnOk result (release (memory self.old) p ≡ Ok (memory self.new)) }
        ensures trap { IfErr result (λ t. release (memory self.old) p ≡ Err t) }
        ensures kept { OnErr result (memory self.new ≡ memory self.old) }
        ensures pairs { given self.new ≡ given self.old }
        ensures keys { key_count self.new ≡ key_count self.old }
    {
        match p {
            Value::Null => Ok(()),
            Value::Ptr(name, offset) => self.free_named(name, offset),
            _ => Err(Trap::Dead),
        }
    }

    /// What the cell at a pointer holds: `null`, `dead`, `bounds` past the object or at a cell of another type, `uninit`
    /// (ISO/IEC 9899:2011, 6.3.2.1).
    pub fn load(&self, p: Value, ty: Ty) -> Result<Value, Trap>
        ensures { result ≡ load (memory self.now) p ty }
    {
        match p {
            Value::Null => Err(Trap::Null),
            Value::Ptr(name, offset) => match self.named(name) {
                None => Err(Trap::Dead),
                Some(obj) => match obj.stored(offset, ty) {
                    Err(trap) => Err(trap),
                    Ok(stored) => defined(stored.value()),
                },
            },
            _ => Err(Trap::Dead),
        }
    }

    /// Writes a value into the cell at a pointer: `null`, `dead`, `bounds` past the object or at a cell of another type,
    /// `literal` (ISO/IEC 9899:2011, 6.4.5, 6.5.16).
    pub fn store(&mut self, p: Value, ty: Ty, v: Value) -> Result<(), Trap>
        ensures stored { OnOk result (store (memory self.old) p ty v ≡ Ok (memory self.new)) }
        ensures trap { IfErr result (λ t. store (memory self.old) p ty v ≡ Err t) }
        ensures kept { OnErr result (memory self.new ≡ memory self.old) }
        ensures pairs { given self.new ≡ given self.old }
        ensures keys { key_count self.new ≡ key_count self.old }
    {
        match p {
            Value::Null => Err(Trap::Null),
            Value::Ptr(name, offset) => self.store_named(name, offset, Cell::new(ty, v)),
            _ => Err(Trap::Dead),
        }
    }

    /// The heap object at an address: none where none lives there.
    pub fn object(&self, a: u64) -> Option<&Obj>
        ensures { option_map shown (option_copied result) ≡ (memory self.now).at (name.Heap a) }
    {
        self.objects.get(a)
    }

    /// The address of the heap object with a heap number: none where none lives.
    pub fn object_of(&self, serial: u64) -> Option<u64>
        ensures { (a : ℕ) → (result ≡ Some a) ↔ (number_at (memory self.now) a ≡ Some serial) }
    {
        match self.numbers.get(&serial) {
            None => None,
            Some(a) => Some(*a),
        }
    }

    /// The global of a number: none where none was set.
    pub fn global(&self, i: u32) -> Option<&Obj>
        ensures { option_map shown (option_copied result) ≡ (memory self.now).at (name.Glob i) }
    {
        self.globals.get(u64::from(i))
    }

    /// The literal of a version, by number: none where none was set.
    pub fn literal(&self, v: u8, i: u32) -> Option<&Obj>
        ensures { option_map shown (option_copied result) ≡ (memory self.now).at (name.Lit v i) }
    {
        self.literals.get(v, i)
    }

    /// Makes `obj` the global of a number.
    pub fn set_global(&mut self, i: u32, obj: Obj) -> Result<(), AllocError>
        ensures set { OnOk result (memory self.new ≡ with_object (memory self.old) (name.Glob i) (shown obj)) }
        ensures kept { OnErr result (memory self.new ≡ memory self.old) }
        ensures pairs { given self.new ≡ given self.old }
        ensures keys { key_count self.new ≡ key_count self.old }
    {
        self.globals.set(u64::from(i), obj)
    }

    /// Makes `obj` the literal of a version, by number.
    pub fn set_literal(&mut self, v: u8, i: u32, obj: Obj) -> Result<(), AllocError>
        ensures set { OnOk result (memory self.new ≡ with_object (memory self.old) (name.Lit v i) (shown obj)) }
        ensures kept { OnErr result (memory self.new ≡ memory self.old) }
        ensures pairs { given self.new ≡ given self.old }
        ensures keys { key_count self.new ≡ key_count self.old }
    {
        self.literals.set(v, i, obj)
    }

    /// Makes `obj` a live heap object under its own heap number, which was taken before this heap's first one, in a heap
    /// from which nothing was released.
    pub fn place(&mut self, obj: Obj) -> Result<u64, AllocError>
        requires taken { obj.serial < (memory self.old).next }
        requires not_live { (a : ℕ) → number_at (memory self.old) a ≡ Some obj.serial → ⊥ }
        requires some_cell { 1 ≤ length obj.cells }
        requires room { (memory self.old).live + length obj.cells ≤ 4194304 }
        requires all_live { AreAllLive (given self.old) (memory self.old) }
        requires addresses { length (given self.old) < 4294967296 }
        ensures placed { IfOk result (λ a. memory self.new ≡ with_placed (memory self.old) a (shown obj)) }
        ensures pair { IfOk result (λ a. given self.new ≡ given self.old ++ (a, obj.serial) ∷ []) }
        ensures fresh { IfOk result (λ a. IsNew (given self.old) a) }
        ensures unused { IfOk result (λ a. (memory self.old).at (name.Heap a) ≡ None) }
        ensures generation { IfOk result (λ a. generation_of a ≡ length (given self.old)) }
        ensures key { IfOk result (λ a. TakesKey (memory self.old) (key_count self.old) (key_count self.new) a) }
        ensures address { IfOk result (λ a. a ≡ place_address (length (given self.old))) }
        ensures kept { OnErr result (memory self.new ≡ memory self.old) }
        ensures pairs_kept { OnErr result (given self.new ≡ given self.old) }
        ensures keys_kept { OnErr result (key_count self.new ≡ key_count self.old) }
    {
        let next = self.next;
        self.add(obj, next)
    }

    /// Why an allocation of a count of elements of so many cells fails, want of memory aside.
    fn fault(&self, width: usize, count: u32) -> Option<AllocFault>
        requires { width ≤ 65536 }
        ensures { MatchOption result (alloc_fault (memory self.now) width count ≡ None) (λ e. alloc_fault (memory self.now) width count ≡ fault_trap e) }
    {
        let size = u64::from(count) * width as u64;
        if count < 1 || size > OBJECT_LIMIT {
            return Some(AllocFault::Size);
        }
        if self.live + size > LIVE_LIMIT {
            return Some(AllocFault::Heap);
        }
        None
    }

    /// Adds a heap object under a heap number that was not paired with an address. The next heap number is `next` then.
    fn add(&mut self, obj: Obj, next: u64) -> Result<u64, AllocError>
        requires unpaired { (a : ℕ) → Paired (given self.old) a obj.serial → ⊥ }
        requires below { obj.serial < next }
        requires later { (memory self.old).next ≤ next }
        requires room { (memory self.old).live + length obj.cells ≤ 4194304 }
        requires addresses { length (given self.old) < 4294967296 }
        ensures added { IfOk result (λ a. memory self.new ≡ with_added (memory self.old) a next (shown obj)) }
        ensures pair { IfOk result (λ a. given self.new ≡ given self.old ++ (a, obj.serial) ∷ []) }
        ensures fresh { IfOk result (λ a. IsNew (given self.old) a) }
        ensures unused { IfOk result (λ a. (memory self.old).at (name.Heap a) ≡ None) }
        ensures generation { IfOk result (λ a. generation_of a ≡ length (given self.old)) }
        ensures key { IfOk result (λ a. TakesKey (memory self.old) (key_count self.old) (key_count self.new) a) }
        ensures address { AreAllLive (given self.old) (memory self.old) → IfOk result (λ a. a ≡ place_address (length (given self.old))) }
        ensures kept { OnErr result (memory self.new ≡ memory self.old) }
        ensures pairs_kept { OnErr result (given self.new ≡ given self.old) }
        ensures keys_kept { OnErr result (key_count self.new ≡ key_count self.old) }
    {
        let serial = obj.serial;
        let size = obj.cells.as_slice().len() as u64;
        self.given.reserve(1)?;
        self.numbers.reserve(1)?;
        let a = self.objects.insert(self.given.len() as u64, obj)?;
        let _ = self.numbers.insert(serial, a);
        self.given.push_reserved((a, serial));
        self.live += size;
        self.next = next;
        Ok(a)
    }

    /// The object under a name.
    fn named(&self, name: Name) -> Option<&Obj>
        ensures { option_map shown (option_copied result) ≡ (memory self.now).at name }
    {
        match name {
            Name::Glob(i) => self.global(i),
            Name::Lit(v, i) => self.literal(v, i),
            Name::Heap(a) => self.object(a),
        }
    }

    /// Writes a cell of the object under a name.
    fn store_named(&mut self, name: Name, offset: u32, cell: Cell) -> Result<(), Trap>
        ensures stored { OnOk result (store (memory self.old) (value.Ptr name offset) cell.ty cell.value ≡ Ok (memory self.new)) }
        ensures trap { IfErr result (λ t. store (memory self.old) (value.Ptr name offset) cell.ty cell.value ≡ Err t) }
        ensures kept { OnErr result (memory self.new ≡ memory self.old) }
        ensures pairs { given self.new ≡ given self.old }
        ensures keys { key_count self.new ≡ key_count self.old }
    {
        match name {
            Name::Glob(i) => self.globals.store(u64::from(i), offset, cell),
            Name::Lit(v, i) => match self.literals.get(v, i) {
                None => Err(Trap::Dead),
                Some(obj) => match obj.stored(offset, cell.ty()) {
                    Err(trap) => Err(trap),
                    Ok(_) => Err(Trap::Literal),
                },
            },
            Name::Heap(a) => self.objects.store(a, offset, cell),
        }
    }

    /// Ends the heap object under a name.
    fn free_named(&mut self, name: Name, offset: u32) -> Result<(), Trap>
        ensures freed { OnOk result (release (memory self.old) (value.Ptr name offset) ≡ Ok (memory self.new)) }
        ensures trap { IfErr result (λ t. release (memory self.old) (value.Ptr name offset) ≡ Err t) }
        ensures kept { OnErr result (memory self.new ≡ memory self.old) }
        ensures pairs { given self.new ≡ given self.old }
        ensures keys { key_count self.new ≡ key_count self.old }
    {
        if self.named(name).is_none() {
            return Err(Trap::Dead);
        }
        match name {
            Name::Heap(a) if offset == 0 => {
                self.free_at(a);
                Ok(())
            }
            _ => Err(Trap::Free),
        }
    }

    /// Ends the heap object at an address.
    fn free_at(&mut self, a: u64)
        requires { IsSome ((memory self.old).at (name.Heap a)) }
        ensures freed { IfSome ((memory self.old).at (name.Heap a)) (λ o. memory self.new ≡ without (memory self.old) a o) }
        ensures pairs { given self.new ≡ given self.old }
        ensures keys { key_count self.new ≡ key_count self.old }
    {
        if let Some(obj) = self.objects.take(a) {
            self.numbers.remove(&obj.serial);
            self.live = self.live.saturating_sub(obj.cells.as_slice().len() as u64);
        }
    }
}
