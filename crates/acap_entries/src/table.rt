//! `Table`: an attribute's name and what is kept for it, in the order of the names.
ghost use Rattle.std.specs.Prelude.{◌≡◌, OnOk, OnErr};
ghost use Rattle.std.specs.Option.{option_copied};
ghost use Rattle.std.specs.FinMap as map;
ghost use Rattle.acap_entries.specs.Tables.{tables_eq, tables_equiv, tables_per};

use crate::keys::AttributeText;
use crate::record::Cell;
use crate::shared::Values;
use crate::text::Attribute;
use acap_ordmap::{Copying, Memory, Probe, Whole, copy_all, lookup, set_in, take_out};
use std::alloc::Global;
use std::marker::Model;

/// The values of a record by attribute, NIL included (RFC 2244 section 3.1).
pub type Cells = Table<Cell>;

/// The access control lists of a record by attribute (RFC 2244 section 3.5).
pub type Acls = Table<Values>;

/// What is kept for some attributes: seen as a finite map.
#[derive(Drop)]
pub struct Table<V> {
    entries: Vec<(Attribute, V)>,
}

impl<V> Model for Table<V> {
    ghost use Rattle.acap_ordmap.specs.Sorted.{InOrder};
    ghost use Rattle.acap_entries.specs.Orders.{octets_cmp};
    ghost use Rattle.std.specs.FinMap as map;
    ghost use Rattle.std.specs.Coded.{coded_list, coded_ℕ};

    ghost Value = { map.FinMap octets_cmp V };

    ghost coded = { map.code (coded_list coded_ℕ) V.code };

    ghost view = { λ m. map.from_sorted m.entries.items };

    ghost invariant = { λ m. InOrder octets_cmp m.entries.items };
}

#[tactic(auto, using(crate::proofs::Kept::kept))]
impl<V: Drop> Table<V> {
    /// An empty table. Takes no memory.
    pub fn new(alloc: Global) -> Table<V>
        ensures { result ≡ map.empty }
    {
        Table {
            entries: Vec::new(alloc),
        }
    }

    /// What an attribute has, if anything is kept for it.
    pub fn get(&self, attribute: &Attribute) -> Option<&V>
        ensures { option_copied result ≡ map.get self.now attribute.now }
    {
        lookup(self.entries.as_slice(), &Whole { key: attribute })
    }

    /// The same for an attribute that is given by its octets.
    pub fn find(&self, attribute: &[u8]) -> Option<&V>
        ensures { option_copied result ≡ map.get self.now attribute.now }
    {
        lookup(
            self.entries.as_slice(),
            &AttributeText { octets: attribute },
        )
    }

    /// The same for an attribute that a probe stands for, as two parts of a name joined.
    pub fn find_by<Q: Probe<Attribute>>(&self, probe: &Q) -> Option<&V>
        ensures { option_copied result ≡ map.get self.now (Q.key probe.now) }
    {
        lookup(self.entries.as_slice(), probe)
    }

    /// All that is kept, in the order of the attributes' octets.
    pub fn entries(&self) -> &[(Attribute, V)]
        ensures { result.now ≡ map.entries self.now }
    {
        self.entries.as_slice()
    }

    /// How many attributes there are.
    pub fn len(&self) -> usize
        ensures { result ≡ map.len self.now }
    {
        self.entries.len()
    }

    /// Sets what an attribute has. Fails only for want of memory, and then nothing has changed.
    pub fn set(&mut self, attribute: Attribute, given: V) -> Result<(), Memory>
        ensures ok { OnOk result (self.new ≡ map.insert self.old attribute given) }
        ensures err { OnErr result (self.new ≡ self.old) }
    {
        set_in(&mut self.entries, attribute, given)?;
        Ok(())
    }

    /// Takes an attribute out. Takes no memory.
    pub fn remove(&mut self, attribute: &Attribute)
        ensures { self.new ≡ map.remove self.old attribute.now }
    {
        let _ = take_out(&mut self.entries, &Whole { key: attribute });
    }
}

#[tactic(auto, using(crate::proofs::Kept::kept))]
impl<V: PartialEq> PartialEq for Table<V> {
    ghost eq = { tables_eq V.eq };

    ghost laws = { tables_per V.laws };

    fn eq(&self, other: &Table<V>) -> bool {
        self.entries.as_slice() == other.entries.as_slice()
    }
}

impl<V: Eq> Eq for Table<V> {
    ghost laws = { tables_equiv V.Eq.laws };
}

impl<V: Copying + Drop> Clone for Table<V> {
    ghost is_clone = { λ x y. y ≡ x };

    fn clone(&self) -> Result<Table<V>, Memory> {
        let entries = copy_all(&self.entries)?;
        Ok(Table { entries })
    }
}

impl<V: Copying + Drop> Copying for Table<V> {
    fn copy(&self) -> Result<Table<V>, Memory> {
        self.clone()
    }
}
