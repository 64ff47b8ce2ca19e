//! A list of sections, which is a script.
ghost use Rattle.std.specs.Prelude.{◌≡◌, ◌<◌, ◌+◌, All, [], ◌∷◌, ◌++◌, Some, length, slice_get};
ghost use Rattle.ob_script.specs.Sections.{all_accesses, IsSized};

use crate::section::Section;
use arrayvec::ArrayVec;
use ob_base::Access;
use std::marker::Model;

/// At most 16 sections, whose accesses follow one another.
#[derive(Drop)]
pub(crate) struct Sections {
    items: ArrayVec<Section, 16>,
}

impl Model for Sections {
    ghost use Rattle.std.specs.Prelude.{List, All, length, ◌≤◌};
    ghost use Rattle.ob_script.specs.declared.section.Section.{Section};
    ghost use Rattle.ob_script.specs.Sections.{AreSized};

    ghost Value = { List Section };

    ghost view = { λ p. p.items.items };

    ghost invariant = { λ p. AreSized p.items.items };
}

impl Sections {
    pub(crate) fn new() -> Sections
        ensures { result ≡ [] }
    {
        Sections {
            items: ArrayVec::new(),
        }
    }

    /// Adds a section at the end.
    #[tactic(auto, using(crate::proofs::Joined::all_more))]
    pub(crate) fn push(&mut self, section: Section)
        requires room { length self.old < 16 }
        requires sized { IsSized section }
        ensures value { self.new ≡ self.old ++ section ∷ [] }
    {
        self.items.push(section);
    }

    /// The number of accesses.
    pub(crate) fn len(&self) -> u64
        ensures { result ≡ length (all_accesses self.now) }
    {
        let mut sum = 0;
        for section in self.items.as_slice() {
            sum += section.len();
        }
        sum
    }

    /// The access at place `i`, from 0.
    pub(crate) fn nth(&self, i: u64) -> Access
        requires { i < length (all_accesses self.now) }
        ensures { slice_get (all_accesses self.now) i ≡ Some result }
    {
        nth_of(self.items.as_slice(), i)
    }
}

#[tactic(auto, using(crate::proofs::Eaches::get_front, crate::proofs::Eaches::get_back))]
fn nth_of(sections: &[Section], i: u64) -> Access
    requires sized { All IsSized sections.now }
    requires within { i < length (all_accesses sections.now) }
    ensures { slice_get (all_accesses sections.now) i ≡ Some result }
{
    match sections.split_first() {
        None => unreachable!(),
        Some((section, rest)) => {
            let len = section.len();
            if i < len {
                section.nth(i)
            } else {
                nth_of(rest, i - len)
            }
        }
    }
}
