//! A keeper in memory.
ghost use Rattle.std.specs.Prelude.{◌≡◌, ◌≤◌, [], None, OnErr};
ghost use Rattle.ob_reopen.specs.Keepers.{DrawsSalt, IsMark, GivesMark, SetsMark, CountsFault, Calls, told_by};

use crate::keeper::{Keeper, Salts};
use crate::mark::Mark;
use ob_base::Failed;
use std::marker::Model;

/// A keeper in memory, some of whose calls fail. It tells what it holds.
#[derive(Drop)]
pub struct MemKeeper {
    mark: Mark,
    fail: Vec<u64>,
    calls: u64,
    faults: u64,
    // the last of them is the next
    salts: Option<Vec<[u8; 16]>>,
    drawn: Option<[u8; 16]>,
}

impl Model for MemKeeper {
    ghost use Rattle.ob_reopen.specs.Keepers.{IsMark, MemoryState, salts_in};

    ghost Value = { MemoryState };

    ghost view = { λ k. record {
      mark = k.mark;
      fail = k.fail.items;
      calls = k.calls;
      faults = k.faults;
      salts = salts_in k.salts;
      drawn = k.drawn;
    } };

    ghost invariant = { λ k. IsMark k.mark };
}

impl MemKeeper {
    /// A keeper that holds this mark. Its calls, counted from 1, fail where `fail` has their number.
    pub fn new(mark: Mark, fail: Vec<u64>) -> MemKeeper
        requires { IsMark mark }
        ensures { result ≡ record {
          mark = mark;
          fail = fail.items;
          calls = 0;
          faults = 0;
          salts = [];
          drawn = None;
        } }
    {
        MemKeeper {
            mark,
            fail,
            calls: 0,
            faults: 0,
            salts: None,
            drawn: None,
        }
    }

    /// The same, which draws these salts, the last of them first. Once it has drawn them all it fails.
    pub fn with_salts(self, salts: Vec<[u8; 16]>) -> MemKeeper
        ensures { result ≡ record self { salts = salts.items } }
    {
        let MemKeeper {
            mark,
            fail,
            calls,
            faults,
            drawn,
            ..
        } = self;
        MemKeeper {
            mark,
            fail,
            calls,
            faults,
            salts: Some(salts),
            drawn,
        }
    }

    // Counts a call, and says whether it fails.
    fn call(&mut self) -> Result<(), Failed>
        ensures calls { Calls result self.old self.new }
        ensures cause { CountsFault result (told_by self.old) (told_by self.new) }
        ensures faults { self.old.faults ≤ self.new.faults }
        ensures mark { self.new.mark ≡ self.old.mark }
    {
        self.calls = self.calls.saturating_add(1);
        if self.fail.contains(&self.calls) {
            self.faults = self.faults.saturating_add(1);
            return Err(Failed);
        }
        Ok(())
    }
}

impl Keeper for MemKeeper {
    ghost state = { λ k. told_by k };

    fn mark(&mut self) -> Result<Mark, Failed>
        ensures gives { GivesMark result (told_by self.old) (told_by self.new) }
        ensures calls { Calls result self.old self.new }
    {
        self.call()?;
        Ok(self.mark)
    }

    fn set(&mut self, mark: &Mark) -> Result<(), Failed>
        requires { IsMark mark.now }
        ensures sets { SetsMark mark.now result (told_by self.old) (told_by self.new) }
        ensures calls { Calls result self.old self.new }
        ensures failed { OnErr result (self.new.mark ≡ self.old.mark) }
    {
        self.call()?;
        self.mark = *mark;
        Ok(())
    }
}

impl Salts for MemKeeper {
    fn salt(&mut self) -> Result<[u8; 16], Failed>
        ensures draws { DrawsSalt result (told_by self.old) (told_by self.new) }
    {
        self.call()?;
        let next = match &mut self.salts {
            Some(salts) => salts.pop(),
            None => None,
        };
        let mut salt = [0; 16];
        match &next {
            Some(bytes) => {
                salt.copy_from_slice(bytes);
                self.drawn = Some(salt);
                Ok(salt)
            }
            None => {
                self.faults = self.faults.saturating_add(1);
                Err(Failed)
            }
        }
    }
}
