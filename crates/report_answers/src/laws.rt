//! Laws about command line arguments and about reports. Each law is the contract of a function that does nothing.
ghost use Rattle.report_answers.specs.JsonLaws.{MembersAreListed, ReportsAreJson};
ghost use Rattle.report_answers.specs.Laws.{AcceptedTextsAgree, FindingsAreDetermined, ModulesAreNotRefused};
ghost use Rattle.report_answers.specs.Laws.{OutcomeIsDetermined};
ghost use Rattle.report_answers.specs.WordLaws.{TwiceIsOfTwoWords, WordsChangePlaces};

use std::alloc::Global;

/// States that the order of arguments does not matter, and that one is reported as repeated exactly if an earlier one sets the same option.
pub fn words_stand_in_any_order()
    ensures order { WordsChangePlaces Global }
    ensures twice { TwiceIsOfTwoWords Global }
{}

/// States that what is found of a module is determined by the checks that are made, except for which of several faults, causes or sources
/// is named.
pub fn findings_are_determined()
    ensures { FindingsAreDetermined }
{}

/// States that all reports on an input have the same outcome if their options make the same checks and the input isn't too long.
pub fn outcome_is_determined()
    ensures { OutcomeIsDetermined }
{}

/// States that an input is reported as no module only if it denotes none, if blocks of its module nest too deep, or if it is too long.
pub fn modules_are_not_refused()
    ensures { ModulesAreNotRefused }
{}

/// States that all JSON on an accepted module is the same if no optional section is requested, except for the sources that are named.
pub fn accepted_texts_agree()
    ensures { AcceptedTextsAgree }
{}

/// States that all JSON output is JSON in UTF-8: one object, with the members of the format's specification in its order.
pub fn reports_are_json()
    ensures reports { ReportsAreJson }
    ensures members { MembersAreListed }
{}
