//! Worked examples of what an allocation answers.
ghost use Rattle.std.specs.Prelude.{◌≡◌};
ghost use Rattle.history.specs.Objects.{unmade};
ghost use Rattle.history.specs.Examples.{replies, frozen_steps, frozen_replies, shared_steps, shared_replies, two_phase_steps, two_phase_replies, conflicted_steps, conflicted_replies, protected_unique_steps, protected_unique_replies, protected_cell_steps, protected_cell_replies, free_cell_steps, free_cell_replies, box_steps, box_replies, strong_free_steps, strong_free_replies, protector_end_steps, protector_end_replies, out_of_range_steps, out_of_range_replies, stranger_steps, stranger_replies, copied_out_steps, copied_out_replies, copied_in_steps, copied_in_replies, overwritten_steps, overwritten_replies, no_tag_steps, no_tag_replies, modified_steps, modified_replies, exchanged_steps, exchanged_replies, shared_exchange_steps, shared_exchange_replies, freed_steps, freed_replies, stack_steps, stack_replies, unmade_steps, unmade_replies};

/// Reborrows without a protector.
pub fn reborrows_by_example()
    ensures frozen { replies (unmade 1) frozen_steps ≡ frozen_replies }
    ensures shared { replies (unmade 1) shared_steps ≡ shared_replies }
    ensures two_phase { replies (unmade 1) two_phase_steps ≡ two_phase_replies }
    ensures cell { replies (unmade 1) free_cell_steps ≡ free_cell_replies }
{}

/// Nodes under a protector, and its end.
pub fn protectors_by_example()
    ensures conflicted { replies (unmade 1) conflicted_steps ≡ conflicted_replies }
    ensures unique { replies (unmade 1) protected_unique_steps ≡ protected_unique_replies }
    ensures cell { replies (unmade 1) protected_cell_steps ≡ protected_cell_replies }
    ensures weak { replies (unmade 1) box_steps ≡ box_replies }
    ensures strong { replies (unmade 1) strong_free_steps ≡ strong_free_replies }
    ensures ends { replies (unmade 1) protector_end_steps ≡ protector_end_replies }
{}

/// Pointers that may not use an allocation, and pointers in memory.
pub fn provenances_by_example()
    ensures range { replies (unmade 1) out_of_range_steps ≡ out_of_range_replies }
    ensures stranger { replies (unmade 2) stranger_steps ≡ stranger_replies }
    ensures copied_out { replies (unmade 2) copied_out_steps ≡ copied_out_replies }
    ensures copied_in { replies (unmade 3) copied_in_steps ≡ copied_in_replies }
    ensures overwritten { replies (unmade 3) overwritten_steps ≡ overwritten_replies }
    ensures no_tag { replies (unmade 1) no_tag_steps ≡ no_tag_replies }
{}

/// Reads and writes in one step.
pub fn exchanges_by_example()
    ensures modified { replies (unmade 1) modified_steps ≡ modified_replies }
    ensures exchanged { replies (unmade 1) exchanged_steps ≡ exchanged_replies }
    ensures shared { replies (unmade 1) shared_exchange_steps ≡ shared_exchange_replies }
{}

/// Requests that trap.
pub fn traps_by_example()
    ensures freed { replies (unmade 1) freed_steps ≡ freed_replies }
    ensures stack { replies (unmade 1) stack_steps ≡ stack_replies }
    ensures unmade { replies (unmade 1) unmade_steps ≡ unmade_replies }
{}
