//! What a report without the violations that rules hold tells of all first violations.
ghost use Rattle.std.specs.Prelude.{◌≡◌, ◌+◌, length};
ghost use Rattle.std.specs.List.{flat_map};
ghost use Rattle.history.specs.Records.{first_violations};
ghost use Rattle.history.specs.declared.record.RunRecord.{RunRecord};
ghost use Rattle.report.specs.Violation.{violation_line};
ghost use Rattle.suppress.specs.Held.{held_count, shown, shown_line};
ghost use Rattle.suppress.specs.declared.rules.Rules.{Rules};

/// The violation lines of the report are those of the first violations that the rules do not hold, in the order of the
/// stamps, and as many first violations as it counts as held are left out.
pub fn the_others_are_held()
    ensures lines { (rules : Rules) (kept : RunRecord) → flat_map (shown_line rules) (first_violations kept) ≡ flat_map violation_line (shown rules kept) }
    ensures counts { (rules : Rules) (kept : RunRecord) → length (shown rules kept) + held_count rules kept ≡ length (first_violations kept) }
{}
