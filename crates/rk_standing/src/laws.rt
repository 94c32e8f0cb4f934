// Laws of what files stand for.
ghost use Rattle.std.specs.Prelude.{◌≡◌, ◌≤◌, ◌<◌, ◌+◌, ◌⊎◌, ℕ, Bool, true, not, Ok, List, [], length, take, ◌++◌, IsPermutation};
ghost use Rattle.rk_model.specs.Lists.{Among};
ghost use Rattle.rk_model.specs.Operations.{History, last, numbered, operations};
ghost use Rattle.rk_model.specs.declared.op.Entry.{Entry};
ghost use Rattle.rk_mem.specs.Chunks.{AreNewer};
ghost use Rattle.rk_mem.specs.Memory.{EachTwo};
ghost use Rattle.rk_merge_laws.specs.Chunks.{all_of};
ghost use Rattle.rk_memstore.specs.Agreement.{Agrees};
ghost use Rattle.rk_outside.specs.Disks.{Files, Disk, IsHonest, LeavesOnly};
ghost use Rattle.rk_log.specs.Groups.{IsGroupOf};
ghost use Rattle.rk_opening.specs.Stores.{StoreSeen, has_magic, settled, store_of};
ghost use Rattle.rk_opening.specs.Openings.{MayBeLeft, Reads};
ghost use Rattle.rk_standing.specs.Stands.{Stands, StandsForFirst, StoreStands, is_second};
ghost use Rattle.rk_wal.specs.Following.{other_of};
ghost use Rattle.rk_wal.specs.Writing.{HasStoreOf, HasMore};
ghost use Rattle.rk_standing.specs.Growing.{TakesMore};
ghost use Rattle.rk_standing.specs.Entering.{StandsAtEntry};

/// Entries that stand for a history stand for it with more commits, where the operations of these are added with the numbers
/// behind the last one.
pub fn entries_stand_for_more()
    ensures { (old new : List (List Entry)) (h more : History) (live : List ℕ) → Agrees old h live →
        ((n : ℕ) → Among n live → n ≤ last h) →
        IsPermutation (all_of old ++ numbered (last h + 1) (operations more)) (all_of new) → EachTwo AreNewer new →
        Agrees new (h ++ more) live }
{}

/// Over a vault that stands for some first commits of a history, an opening leaves only what stands for first commits of it, and
/// what reads give afterwards stands for the same as before.
pub fn an_opening_leaves_first_commits()
    ensures crash { (g : History) (k least : ℕ) (old new : Disk) → StandsAtEntry g k least old → IsHonest old →
        LeavesOnly old new (MayBeLeft old) → LeavesOnly old new (StandsForFirst least g) }
    ensures reads { (g : History) (k least : ℕ) (old : Disk) (new : Files) → StandsAtEntry g k least old →
        Reads old.files new → Stands new (take k g) }
{}

/// An append of the group of commits behind a history leaves the store that stood for the history, or one that stands for it with
/// these commits and takes more.
pub fn an_append_leaves_first_commits()
    ensures same { (in_second : Bool) (old files : Files) (s : StoreSeen) (h : History) → TakesMore in_second old s h →
        HasStoreOf old files → TakesMore in_second files s h }
    ensures more { (in_second : Bool) (old files : Files) (s : StoreSeen) (h commits : History) (payload : List ℕ) →
        TakesMore in_second old s h → IsGroupOf payload (record { first = last h + 1; batches = commits }) →
        last h + length (operations commits) < 72057594037927936 → HasMore in_second payload old files →
        (more : StoreSeen) × TakesMore in_second files more (h ++ commits) }
    ensures crash { (in_second : Bool) (old new : Disk) (s : StoreSeen) (h commits : History) (payload : List ℕ) →
        TakesMore in_second old.files s h → IsGroupOf payload (record { first = last h + 1; batches = commits }) →
        last h + length (operations commits) < 72057594037927936 →
        LeavesOnly old new (λ image. HasStoreOf old.files image ⊎ HasMore in_second payload old.files image) →
        LeavesOnly old new (StandsForFirst (last h) (h ++ commits)) }
{}

/// A store that was opened takes more in the log that is written to, and one whose other log is empty takes more in that one.
pub fn an_opened_store_takes_more()
    ensures opened { (files : Files) (before : StoreSeen) (h : History) → has_magic (files 0) ≡ true →
        store_of files ≡ Ok (settled before) → ((old : Files) × (store_of old ≡ Ok before)) → StoreStands (settled before) h →
        TakesMore (is_second (settled before)) files (settled before) h }
    ensures switched { (in_second : Bool) (files : Files) (s : StoreSeen) (h : History) → TakesMore in_second files s h →
        other_of in_second s.logs ≡ [] → TakesMore (not in_second) files s h }
{}
