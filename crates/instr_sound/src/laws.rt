//! The tie of the two threads. The functions do nothing: their contracts are what is promised.
ghost use Rattle.instr_sound.specs.Tie.{ProgramsTie, AcceptedProgramsFit};

/// The thread over a program's translation asks, turns, answers and starts children as the thread over its text does, in
/// every program that fits; and each accepted program fits.
pub fn threads_tie()
    ensures tie { ProgramsTie }
    ensures fits { AcceptedProgramsFit }
{}

ghost use Rattle.std.specs.Prelude.{◌≡◌, [], ◌∷◌};
ghost use Rattle.source_sem.specs.Source.{source_start};
ghost use Rattle.source_sem.specs.Traces.{asked, three, three_given, three_asked, sibling, sibling_given, sibling_asked, half, half_given, half_asked, leaving, leaving_given, leaving_asked, swaps, swaps_given, swaps_asked, prov};
ghost use Rattle.instr_sound.specs.Simulation.{source_setting};
ghost use Rattle.instr_sound.specs.Tried.{translated_asked, translated_count, two_pointers, kinds, kinds_hosts, kinds_input, kinds_given, kinds_asked};

/// What the translations of small programs ask, part after part, and how many instructions they count.
pub fn asked_by_example()
    ensures three { translated_asked three.program [] [] 0 [] three_given ≡ three_asked }
    ensures sibling { translated_asked sibling.program [] [] 1 [] sibling_given ≡ sibling_asked }
    ensures sibling_count { translated_count sibling.program [] [] 1 [] sibling_given ≡ 9 }
    ensures half { translated_asked half.program [] [] 0 [] half_given ≡ half_asked }
    ensures half_count { translated_count half.program [] [] 0 [] half_given ≡ 6 }
    ensures leaving { translated_asked leaving.program [] [] 1 two_pointers leaving_given ≡ leaving_asked }
    ensures swaps { translated_asked swaps.program [] [] 0 [] swaps_given ≡ swaps_asked }
    ensures kinds { translated_asked kinds kinds_hosts kinds_input 1 [] kinds_given ≡ kinds_asked }
    ensures kinds_source { asked (source_setting kinds kinds_hosts kinds_input) (source_start (source_setting kinds kinds_hosts kinds_input) 1 []) kinds_given ≡ kinds_asked }
{}

ghost use Rattle.instr_sound.specs.Sound.{SoundLaw, FitsUntyped};

/// A machine over a program's translation that simulates a thread over its text does so after each call.
pub fn threads_stay_sound()
    ensures law { SoundLaw }
    ensures fits { FitsUntyped }
{}
