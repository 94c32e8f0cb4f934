// What a record more makes of the groups of both logs.
ghost use Rattle.std.specs.Prelude.{◌≡◌, ◌<◌, ℕ, Bool, true, not, Ok, [], List};
ghost use Rattle.rk_outside.specs.Disks.{Files};
ghost use Rattle.rk_pieces.specs.Pieces.{is_empty};
ghost use Rattle.rk_log.specs.Groups.{GroupSeen, IsGroupOf, group_end};
ghost use Rattle.rk_log.specs.Logs.{LogsSeen, by_the_rules, is_second_active, later};
ghost use Rattle.rk_opening.specs.Stores.{StoreSeen, store_of, settled};
ghost use Rattle.rk_wal.specs.Following.{IsReady, IsNext, due_in, log_of, other_of, with_group};
ghost use Rattle.rk_wal.specs.Writing.{HasMore, HasStoreOf};

/// A record that spells the group which is due is one group more of the store, and the group behind it may follow.
pub fn one_group_more()
    ensures same { (old files : Files) → HasStoreOf old files → store_of files ≡ store_of old }
    ensures more { (in_second : Bool) (payload : List ℕ) (g : GroupSeen) (next : ℕ) (old files : Files) (s : StoreSeen) →
        store_of old ≡ Ok s → IsReady s.version.flushed_upto in_second s.logs next → s.version.flushed_upto < next →
        IsGroupOf payload g → IsNext next g → HasMore in_second payload old files →
        (at : ℕ) × (store_of files ≡ Ok (record s { logs = with_group in_second (record { at = at; group = g }) s.logs }))
        × IsReady s.version.flushed_upto in_second (with_group in_second (record { at = at; group = g }) s.logs) (group_end g) }
{}

/// The log that is written to is ready where logs without later groups were emptied.
pub fn ready_when_opened()
    ensures { (files : Files) (before : StoreSeen) → store_of files ≡ Ok before →
        let s = settled before in
        let in_second = is_second_active s.version.flushed_upto s.logs in
        IsReady s.version.flushed_upto in_second s.logs (due_in s.version.flushed_upto in_second s.logs)
        × (s.version.flushed_upto < due_in s.version.flushed_upto in_second s.logs) }
{}

/// Where the other log is empty, it may be written to instead.
pub fn ready_when_switched()
    ensures { (flushed next : ℕ) (in_second : Bool) (l : LogsSeen) → IsReady flushed in_second l next →
        other_of in_second l ≡ [] → IsReady flushed (not in_second) l next }
{}
