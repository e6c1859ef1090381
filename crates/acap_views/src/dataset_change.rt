//! The dataset of a context before and after a change, with what its touched entries share.
ghost use Rattle.std.specs.Prelude.{◌≡◌, ◌+◌, ◌≤◌, Some, IfOk, OnOk, IfSome};
ghost use Rattle.std.specs.Option.{option_copied};
ghost use Rattle.acap_entries.specs.Leaving.{records_before, records_ahead};
ghost use Rattle.acap_inherit.specs.Records.{record_at};
ghost use Rattle.acap_views.specs.ContextViews as rule;
ghost use Rattle.acap_views.specs.SharedRights.{AreLentFor};

use crate::context_view::ContextView;
use crate::shared_rights::LentRightsPair;
use crate::with_record::WithRecord;
use acap_entries::{After, Memory, Path, Record, RecordEdit, Records, Steps, Tree};
use acap_inherit::chain_unless;
use acap_search::{
    DatasetView, EntryReader, Hit, RecordCursor, SearchSpec, SortPlaces, places_at, row_of,
};
use std::alloc::Global;
use std::marker::Model;
use std::sync::ledger::Ledger;

/// The dataset that a context looks into, before a change and as the change will leave it: its chains and the rights that its
/// entries share are made once. Of many entries the records are at hand in their order.
#[derive(Drop)]
pub(crate) struct DatasetChange<'a> {
    scene: &'a ContextView<'a>,
    before: Option<EntryReader<'a, Tree>>,
    after: EntryReader<'a, WithRecord<'a, WithRecord<'a, After<'a>>>>,
    shelf: Option<RecordCursor<'a>>,
    is_plain: bool,
}

impl<'a> Model for DatasetChange<'a> {
    ghost use Rattle.acap_views.specs.ContextViews as scenes;
    ghost use Rattle.acap_views.specs.ContextViews.{scene_code, IsField};

    ghost Value = { scenes.ContextView };

    ghost coded = { scene_code };

    ghost view = { λ f. f.scene.now };

    ghost invariant = { λ f. IsField f.scene.now f.before f.after f.shelf };
}

// Where an entry of any dataset stood before the change. Fails only for want of memory.
fn places_before(alloc: Global, scene: &ContextView<'_>, path: &Path) -> Result<SortPlaces, Memory>
    ensures { IfOk result (λ places. places ≡ rule.places_before scene.now path.now) }
{
    let sought = scene.sought;
    if sought.sort.is_none() {
        return Ok(SortPlaces::new(alloc));
    }
    let tree = scene.before;
    let by = DatasetView {
        records: tree,
        realm: scene.realm,
        user: scene.user,
        dataset: &path.dataset,
        chain: chain_unless(tree, &path.dataset, sought.no_inherit),
    };
    places_at(alloc, &by, &path.name, sought)
}

// What is found of it afterwards: one step. Fails only for want of memory.
fn find_after<L: Ledger>(
    alloc: Global,
    scene: &ContextView<'_>,
    path: &Path,
    steps: &mut Steps<L>,
) -> Result<Option<Hit>, Memory>
    ensures count { steps.new ≡ steps.old + 1 }
    ensures found { IfOk result (λ found. found ≡ rule.found_after scene.now path.now) }
{
    let after = scene.after;
    let sought = scene.sought;
    let by = DatasetView {
        records: after,
        realm: scene.realm,
        user: scene.user,
        dataset: &path.dataset,
        chain: chain_unless(after, &path.dataset, sought.no_inherit),
    };
    row_of(alloc, &by, &path.name, sought, None, steps)
}

// The record of an entry after a change, where the one before it is at hand, if there is one.
#[tactic(auto, using(acap_entries::proofs::AfterLemmas::get_after))]
fn record_after<'a>(
    ahead: &After<'a>,
    path: &Path,
    before: Option<&'a Record>,
) -> Option<&'a Record>
    requires { option_copied before ≡ record_at (records_before ahead.now) path.now.dataset path.now.name }
    ensures { option_copied result ≡ record_at (records_ahead ahead.now) path.now.dataset path.now.name }
{
    match ahead.writes.get(path) {
        Some(RecordEdit::Put(record)) => Some(record.get()),
        Some(RecordEdit::Remove) => None,
        None => before,
    }
}

impl<'a> DatasetChange<'a> {
    /// That of a context, of which few or many entries are looked at. Takes no memory.
    pub(crate) fn of(
        scene: &'a ContextView<'a>,
        lent: LentRightsPair<'a>,
        are_many: bool,
    ) -> DatasetChange<'a>
        requires { AreLentFor scene.now lent }
        ensures { result ≡ scene.now }
    {
        let before = match &scene.sought.sort {
            Some(_) => Some(EntryReader::new(
                scene.view_before(lent.before.is_some()),
                lent.before,
            )),
            None => None,
        };
        let shelf = if are_many {
            Some(RecordCursor::of(scene.before, &scene.sought.dataset))
        } else {
            None
        };
        DatasetChange {
            scene,
            before,
            after: EntryReader::new(scene.view_after(lent.after.is_some()), lent.after),
            shelf,
            is_plain: lent.after.is_some(),
        }
    }

    /// What the context looks for.
    pub(crate) fn sought(&self) -> &SearchSpec
        ensures { result.now ≡ self.now.sought }
    {
        let scene = self.scene;
        scene.sought
    }

    // The record of an entry of the dataset before the change.
    fn record_before(&mut self, path: &Path) -> Option<&'a Record>
        requires { self.old.sought.dataset ≡ path.now.dataset }
        ensures same { self.new ≡ self.old }
        ensures found { option_copied result ≡ record_at self.old.old path.now.dataset path.now.name }
    {
        let scene = self.scene;
        match &mut self.shelf {
            Some(shelf) => shelf.find(&path.name),
            None => scene
                .before
                .find(path.dataset.as_slice(), path.name.as_slice()),
        }
    }

    // The same before the change and afterwards, where the dataset inherits nothing: else they are of no use.
    fn records(&mut self, path: &Path) -> (Option<&'a Record>, Option<&'a Record>)
        requires { self.old.sought.dataset ≡ path.now.dataset }
        ensures same { self.new ≡ self.old }
        ensures before { IfSome result.0
            (λ entry. record_at self.old.old path.now.dataset path.now.name ≡ Some entry.now) }
        ensures after { IfSome result.1
            (λ entry. record_at self.old.new path.now.dataset path.now.name ≡ Some entry.now) }
    {
        if !self.is_plain {
            return (None, None);
        }
        let scene = self.scene;
        if let Some(written) = scene.first
            && *written.path == *path
        {
            return (written.before, written.after);
        }
        let before = self.record_before(path);
        (before, record_after(scene.ahead, path, before))
    }

    // Where an entry of the dataset stood before the change, whose record may be at hand.
    fn places(
        &self,
        alloc: Global,
        path: &Path,
        entry: Option<&Record>,
    ) -> Result<SortPlaces, Memory>
        requires here { self.now.sought.dataset ≡ path.now.dataset }
        requires entry { IfSome entry
            (λ entry. record_at self.now.old path.now.dataset path.now.name ≡ Some entry.now) }
        ensures { IfOk result (λ places. places ≡ rule.places_before self.now path.now) }
    {
        let scene = self.scene;
        match &self.before {
            Some(surveyor) => surveyor.places(alloc, path, entry, scene.sought),
            None => places_before(alloc, scene, path),
        }
    }

    // What is found of it afterwards: one step.
    fn row<L: Ledger>(
        &self,
        alloc: Global,
        path: &Path,
        entry: Option<&Record>,
        steps: &mut Steps<L>,
    ) -> Result<Option<Hit>, Memory>
        requires here { self.now.sought.dataset ≡ path.now.dataset }
        requires entry { IfSome entry
            (λ entry. record_at self.now.new path.now.dataset path.now.name ≡ Some entry.now) }
        ensures count { steps.new ≡ steps.old + 1 }
        ensures found { IfOk result (λ found. found ≡ rule.found_after self.now path.now) }
    {
        let scene = self.scene;
        self.after.row(alloc, path, entry, scene.sought, steps)
    }

    // Where an entry of the dataset stood before the change, and what is found of it afterwards: one step.
    fn look_here<L: Ledger>(
        &mut self,
        alloc: Global,
        path: &Path,
        steps: &mut Steps<L>,
    ) -> Result<(SortPlaces, Option<Hit>), Memory>
        requires { self.old.sought.dataset ≡ path.now.dataset }
        ensures same { self.new ≡ self.old }
        ensures least { steps.old ≤ steps.new }
        ensures most { steps.new ≤ steps.old + 1 }
        ensures count { OnOk result (steps.new ≡ steps.old + 1) }
        ensures places { IfOk result (λ looked. looked.0 ≡ rule.places_before self.old path.now) }
        ensures found { IfOk result (λ looked. looked.1 ≡ rule.found_after self.old path.now) }
    {
        let (before, after) = self.records(path);
        let places = self.places(alloc, path, before)?;
        let found = self.row(alloc, path, after, steps)?;
        Ok((places, found))
    }

    /// The same of any entry: with DEPTH it may lie in another dataset. Fails only for want of memory.
    pub(crate) fn look<L: Ledger>(
        &mut self,
        alloc: Global,
        path: &Path,
        steps: &mut Steps<L>,
    ) -> Result<(SortPlaces, Option<Hit>), Memory>
        ensures same { self.new ≡ self.old }
        ensures least { steps.old ≤ steps.new }
        ensures most { steps.new ≤ steps.old + 1 }
        ensures count { OnOk result (steps.new ≡ steps.old + 1) }
        ensures places { IfOk result (λ looked. looked.0 ≡ rule.places_before self.old path.now) }
        ensures found { IfOk result (λ looked. looked.1 ≡ rule.found_after self.old path.now) }
    {
        let scene = self.scene;
        if scene.sought.dataset == path.dataset {
            return self.look_here(alloc, path, steps);
        }
        let places = places_before(alloc, scene, path)?;
        let found = find_after(alloc, scene, path, steps)?;
        Ok((places, found))
    }
}
