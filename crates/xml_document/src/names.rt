// Tables that number byte strings. A name is found along a radix tree, whose branches each look at one bit of it, so
// that neither finding nor adding one takes longer than its length, whatever names there are; no hash can be made to
// collide.
ghost use Rattle.std.specs.Prelude.{◌≡◌};

use std::alloc::{AllocError, Global};

/// Where a name stands in the pool of all.
#[derive(Clone, Copy, Debug)]
struct Span {
    start: usize,
    end: usize,
}

/// What a branch leads to.
#[derive(Clone, Copy, Debug)]
enum Child {
    Branch(usize),
    Name(u32),
}

/// A digit of a name that its names differ in, and the bit of the digit: those below it agree in all before.
#[derive(Clone, Copy, Debug)]
struct Branch {
    place: usize,
    bit: u16,
    clear: Child,
    set: Child,
}

/// A link of the tree: the one to its top, or one of a branch.
#[derive(Clone, Copy, Debug)]
enum Link {
    Top,
    Clear(usize),
    Set(usize),
}

/// Byte strings, each with its number, from 1 on.
#[derive(Debug, Drop)]
pub struct Names {
    pool: Vec<u8>,
    spans: Vec<Span>,
    branches: Vec<Branch>,
    top: Option<Child>,
}

/// The number of a name, and whether it was given just now.
#[derive(Clone, Copy, Debug, PartialEq, Eq)]
pub struct Numbered {
    pub number: u32,
    pub is_new: bool,
}

// A digit of a name: its byte and 1, or 0 past its end, which no byte is.
fn digit(name: &[u8], place: usize) -> u16 {
    match name.get(place) {
        Some(byte) => u16::from(*byte) + 1,
        None => 0,
    }
}

// The highest bit that is set.
fn highest_bit(bits: u16) -> u16 {
    let mut bit = 1u16 << 8;
    for _ in 0..8 {
        if bits & bit != 0 {
            return bit;
        }
        bit >>= 1;
    }
    bit
}

// The first digit in which two names differ, and the highest bit that it does so in.
fn first_difference(name: &[u8], other: &[u8]) -> Option<(usize, u16)> {
    for (place, (a, b)) in name.iter().zip(other).enumerate() {
        if a != b {
            return Some((place, highest_bit(digit(name, place) ^ digit(other, place))));
        }
    }
    if name.len() == other.len() {
        return None;
    }
    let place = name.len().min(other.len());
    Some((place, highest_bit(digit(name, place) ^ digit(other, place))))
}

impl Branch {
    fn has_bit(&self, name: &[u8]) -> bool {
        digit(name, self.place) & self.bit != 0
    }

    fn child(&self, name: &[u8]) -> Child {
        if self.has_bit(name) {
            self.set
        } else {
            self.clear
        }
    }

    // Whether it looks at a digit, or a bit, before another.
    fn is_before(&self, place: usize, bit: u16) -> bool {
        self.place < place || self.place == place && self.bit > bit
    }
}

impl Names {
    /// A table of no names.
    pub fn new(alloc: Global) -> Names {
        Names {
            pool: Vec::new(alloc),
            spans: Vec::new(alloc),
            branches: Vec::new(alloc),
            top: None,
        }
    }

    ghost use Rattle.xml_document.specs.Names.{name_count};

    /// How many names have a number.
    pub fn len(&self) -> usize
        ensures { result ≡ name_count self.now }
    {
        self.spans.len()
    }

    pub fn is_empty(&self) -> bool {
        self.spans.is_empty()
    }

    ghost use Rattle.xml_document.specs.Names.{nth_name};

    /// The name whose number is that after `index`; an empty one where there is none.
    pub fn nth(&self, index: usize) -> &[u8]
        ensures { result.now ≡ nth_name self.now index }
    {
        let Some(span) = self.spans.get(index).copied() else {
            return b"";
        };
        match self.pool.as_slice().get(span.start..span.end) {
            Some(name) => name,
            None => b"",
        }
    }

    /// The name that a number is of.
    pub fn get(&self, number: u32) -> Option<&[u8]> {
        let index = number.checked_sub(1)? as usize;
        if index < self.spans.len() {
            Some(self.nth(index))
        } else {
            None
        }
    }

    /// Whether a number is that of a name.
    pub fn is(&self, number: u32, name: &[u8]) -> bool {
        match self.get(number) {
            Some(other) => other == name,
            None => false,
        }
    }

    // The number at which the tree ends on the way of a name: the name's own, if it has one.
    fn nearest(&self, name: &[u8]) -> Option<u32> {
        let mut child = self.top?;
        for _ in 0..self.branches.len() {
            match child {
                Child::Name(number) => return Some(number),
                Child::Branch(index) => child = self.branches.get(index)?.child(name),
            }
        }
        match child {
            Child::Name(number) => Some(number),
            Child::Branch(_) => None,
        }
    }

    /// The number of a name, if it has one.
    pub fn find(&self, name: &[u8]) -> Option<u32> {
        let number = self.nearest(name)?;
        if self.is(number, name) {
            Some(number)
        } else {
            None
        }
    }

    // The link on the way of a name where a branch on a bit of a digit belongs, and what it leads to now.
    fn place_for(&self, name: &[u8], place: usize, bit: u16) -> Option<(Link, Child)> {
        let mut link = Link::Top;
        let mut child = self.top?;
        for _ in 0..self.branches.len() {
            let Child::Branch(index) = child else {
                return Some((link, child));
            };
            let branch = self.branches.get(index)?;
            if !branch.is_before(place, bit) {
                return Some((link, child));
            }
            link = if branch.has_bit(name) {
                Link::Set(index)
            } else {
                Link::Clear(index)
            };
            child = branch.child(name);
        }
        Some((link, child))
    }

    fn set_link(&mut self, link: Link, child: Child) {
        match link {
            Link::Top => self.top = Some(child),
            Link::Clear(index) => {
                if let Some(branch) = self.branches.get_mut(index) {
                    branch.clear = child;
                }
            }
            Link::Set(index) => {
                if let Some(branch) = self.branches.get_mut(index) {
                    branch.set = child;
                }
            }
        }
    }

    // Puts a new name in the tree, where it is the first one or differs from the one nearest to it.
    fn grow(
        &mut self,
        name: &[u8],
        number: u32,
        difference: Option<(usize, u16)>,
    ) -> Result<(), AllocError> {
        let Some((place, bit)) = difference else {
            self.top = Some(Child::Name(number));
            return Ok(());
        };
        let Some((link, other)) = self.place_for(name, place, bit) else {
            return Ok(());
        };
        let own = Child::Name(number);
        let has_bit = digit(name, place) & bit != 0;
        let (clear, set) = if has_bit { (other, own) } else { (own, other) };
        let index = self.branches.len();
        self.branches.push(Branch {
            place,
            bit,
            clear,
            set,
        })?;
        self.set_link(link, Child::Branch(index));
        Ok(())
    }

    /// The number of a name, which it gets where it has none.
    pub fn number(&mut self, name: &[u8]) -> Result<Numbered, AllocError> {
        let nearest = self.nearest(name);
        let difference = match nearest {
            Some(number) => {
                let other = self.get(number).unwrap_or(b"");
                let difference = first_difference(name, other);
                if difference.is_none() {
                    return Ok(Numbered {
                        number,
                        is_new: false,
                    });
                }
                difference
            }
            None => None,
        };
        let Ok(number) = u32::try_from(self.spans.len().saturating_add(1)) else {
            return Err(AllocError);
        };
        let start = self.pool.len();
        self.pool.extend_from_slice(name)?;
        let end = self.pool.len();
        self.spans.push(Span { start, end })?;
        self.grow(name, number, difference)?;
        Ok(Numbered {
            number,
            is_new: true,
        })
    }
}
