//! Numbers of the arguments that events have.

ghost use Rattle.std.specs.Prelude.{◌≡◌, ◌<◌, ◌≤◌, ℕ, [], ◌+◌, ◌-◌, cond, length, nat_eq, nat_lt, slice_index_or, true, false, nat_le, vec_capacity, IfOk, OnOk, OnErr};
ghost use Rattle.std.specs.List.Sorted.{IsNonDecreasing};
ghost use Rattle.press_events.specs.Marks.{IsTwice, count_of, mark, one};

use std::alloc::{AllocError, Global};
use std::marker::Model;

/// Numbers in their order, each as often as it was put in: whether one is there is found by binary
/// search.
#[derive(Debug)]
pub struct Marks {
    marks: Vec<u64>,
}

impl Drop for Marks {
    fn drop(self) {
        let Marks { marks: _ } = self;
    }
}

impl Model for Marks {
    ghost use Rattle.std.specs.Prelude.{ℕ, List};
    ghost use Rattle.std.specs.List.Sorted.{IsNonDecreasing};

    ghost Value = { List ℕ };

    ghost view = { λ m. m.marks.items };

    ghost invariant = { λ m. IsNonDecreasing m.marks.items };
}

impl Marks {
    /// No numbers, which takes no memory.
    pub fn new(alloc: Global) -> Marks
        ensures { result ≡ [] }
    {
        Marks {
            marks: Vec::new(alloc),
        }
    }

    /// A copy of the numbers.
    pub fn copy(&self) -> Result<Marks, AllocError>
        ensures { IfOk result (λ m. m ≡ self.now) }
    {
        let marks = self.marks.clone()?;
        Ok(Marks { marks })
    }

    /// Whether the number is there.
    pub fn has(&self, mark: u64) -> bool
        ensures { result ≡ nat_lt 0 (count_of mark self.now) }
    {
        match self.marks.binary_search(&mark) {
            Ok(_) => true,
            Err(_) => false,
        }
    }

    /// Whether the number is there once at most.
    pub fn is_single(&self, mark: u64) -> bool
        ensures { result ≡ nat_le (count_of mark self.now) 1 }
    {
        match self.marks.binary_search(&mark) {
            Ok(place) => is_alone(&self.marks, place),
            Err(_) => true,
        }
    }

    /// Puts the number in once more.
    pub fn add(&mut self, mark: u64) -> Result<(), AllocError>
        ensures ok { OnOk result ((x : ℕ)
            → count_of x self.new ≡ count_of x self.old + one x mark) }
        ensures err { OnErr result (self.new ≡ self.old) }
    {
        let place = place_in(&self.marks, mark);
        self.marks.insert(place, mark)?;
        Ok(())
    }

    /// Puts the number in once more, in room for one more than all: they move there.
    pub fn add_in(&mut self, mark: u64, room: Vec<u64>)
        requires empty { room.items ≡ [] }
        requires room { length self.old < vec_capacity room }
        ensures { (x : ℕ) → count_of x self.new ≡ count_of x self.old + one x mark }
    {
        let mut marks = room;
        let Ok(()) = marks.append(&mut self.marks) else {
            unreachable!()
        };
        let place = place_in(&marks, mark);
        let Ok(()) = marks.insert(place, mark) else {
            unreachable!()
        };
        self.marks = marks;
    }

    /// Takes the number out once, if it is there.
    pub fn remove(&mut self, mark: u64)
        ensures { (x : ℕ) → count_of x self.new ≡ count_of x self.old - one x mark }
    {
        if let Ok(place) = self.marks.binary_search(&mark) {
            self.marks.remove(place);
        }
    }

    /// Takes the number out so often.
    pub fn remove_times(&mut self, mark: u64, times: usize)
        ensures { (x : ℕ) → count_of x self.new ≡ count_of x self.old
            - cond (nat_eq x mark) times 0 }
    {
        for _ in 0..times {
            self.remove(mark);
        }
    }
}

// Whether the numbers beside a place are others.
fn is_alone(marks: &[u64], place: usize) -> bool
    requires { place < length marks.now }
    ensures before { result ≡ true → 0 < place → (d : ℕ)
        → slice_index_or marks.now (place - 1) d ≡ slice_index_or marks.now place d → ⊥ }
    ensures behind { result ≡ true → place + 1 < length marks.now → (d : ℕ)
        → slice_index_or marks.now (place + 1) d ≡ slice_index_or marks.now place d → ⊥ }
    ensures twice { result ≡ false → (d : ℕ) → IsTwice marks.now place d }
{
    if place > 0 && marks[place - 1] == marks[place] {
        return false;
    }
    place + 1 >= marks.len() || marks[place + 1] != marks[place]
}

// Where a number belongs among numbers in their order.
fn place_in(marks: &[u64], mark: u64) -> usize
    requires { IsNonDecreasing marks.now }
    ensures below { (k d : ℕ) → k < result → slice_index_or marks.now k d ≤ mark }
    ensures above { (k d : ℕ) → result ≤ k → k < length marks.now
        → mark ≤ slice_index_or marks.now k d }
    ensures within { result ≤ length marks.now }
{
    match marks.binary_search(&mark) {
        Ok(place) => place,
        Err(place) => place,
    }
}

/// The number of an argument. Others may have it too.
pub fn mark(arg: &str) -> u64
    ensures { result ≡ mark arg.now }
{
    let mut mark = 0;
    for byte in arg.as_bytes() {
        mark = (mark * 31 + u64::from(*byte)) % (1 << 32);
    }
    mark
}
