//! The mathematics of static combining, over plain lists of proposals.
//! Each function stands for a theorem: its contract is the statement, and the check asks for the proof.
#![tactic(auto)]

ghost use Rattle.matching.specs.Figures.{Figures};
ghost use Rattle.matching.specs.Keeping.{BareLawful, FirstCome, FirstIsNearest, LevelByLevel, OrderedKeeps, PatientIsPatient, PatientKeeps, Telling};
ghost use Rattle.matching.specs.Theorems.{Alteration, Combining, LevelByPowers, OneAnswerToEach, Share, ShareOfTwo, StoredAnyhow};

/// The computed level of a saving is the one that the powers of the ratio say, and no other is.
pub fn a_level_is_read_off_the_powers_of_the_ratio()
    ensures { LevelByPowers }
{}

/// What combining keeps is a pairing of chosen pairs, and each chosen pair is kept or stands beside a kept one of a higher level.
pub fn combining_settles_a_choice()
    ensures { Combining }
{}

/// Any two outcomes that are settled so have the same pairs, and in canonical order they are one list.
pub fn a_choice_is_settled_in_one_way()
    ensures { OneAnswerToEach }
{}

/// No pairing of the open proposals saves more than 2 r² / (r - 1) times what is kept.
pub fn kept_pairs_save_their_share()
    ensures { Share }
{}

/// On the ladder of twos the kept pairs save at least an eighth of what any pairing would.
pub fn kept_pairs_save_an_eighth()
    ensures { ShareOfTwo }
{}

/// A change of the choice at level l alters at most 2 l + 1 kept pairs for each pair that came or went.
pub fn a_change_alters_few_kept_pairs()
    ensures { Alteration }
{}

/// Lists with the same pairs, in whatever order, are as long, save as much and differ from others by as many.
pub fn the_same_pairs_give_the_same_figures()
    ensures { StoredAnyhow }
{}

/// The reading half of a lawful keeper tells each open pair's saving and each chosen pair's meters at its level, and nothing else.
pub fn questions_tell_what_is_open_and_chosen()
    ensures { Telling }
{}

/// A keeper with nothing open is lawful.
pub fn a_keeper_begins_lawful()
    ensures { BareLawful }
{}

/// The patient rule does what every keeper's put and take do, and the keeper stays lawful.
pub fn the_patient_rule_is_a_keepers()
    ensures { PatientKeeps }
{}

/// The patient rule gives up a chosen proposal only when that one is taken.
pub fn the_patient_rule_gives_up_only_what_is_taken()
    ensures { PatientIsPatient }
{}

/// The ordered rule too does what every keeper's put and take do, and the keeper stays lawful.
pub fn the_ordered_rule_is_a_keepers()
    ensures { OrderedKeeps }
{}

/// In canonical order the first proposal that offers to join a meter joins it to the smallest other meter.
pub fn the_first_offer_is_the_nearest()
    ensures { FirstIsNearest }
{}

/// The ordered rule passes over an open proposal only for an earlier chosen one of its level that shares a meter with it.
pub fn the_ordered_rule_prefers_the_earlier()
    ensures { FirstCome }
{}

/// One way through all open proposals chooses at each level what a way through those of that level would.
pub fn the_ordered_choice_is_made_level_by_level()
    ensures { LevelByLevel }
{}

/// Levels of six savings, and saved sums and counts of changes on four small boards, worked out of the rules.
pub fn worked_figures_follow_from_the_rules()
    ensures { Figures }
{}
