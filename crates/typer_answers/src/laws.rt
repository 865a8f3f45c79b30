//! Laws on requests, replies, whole inputs and remaining rules. Each law is the contract of a function that does nothing.

ghost use Rattle.typer_answers.specs.Laws.{AnswersAreUnique, ArraysLeaveNoRule, BadLinesEndAnswers, LastLinesMayLackEnds};
ghost use Rattle.typer_answers.specs.Laws.{RequestsAreAnswered, RequestsAreSpelled, RulesLeftRemain, SamplesHaveOneReport};

/// States that a line is read as a request exactly if it is the request's text.
pub fn requests_are_spelled()
    ensures { RequestsAreSpelled }
{}

/// States that the output for an input of requests is the replies to them.
pub fn requests_are_answered()
    ensures { RequestsAreAnswered }
{}

/// States that the output ends at a line that isn't a request.
pub fn bad_lines_end_answers()
    ensures { BadLinesEndAnswers }
{}

/// States that the last line needs no line feed.
pub fn last_lines_may_lack_ends()
    ensures { LastLinesMayLackEnds }
{}

/// States that a sample has exactly one report.
pub fn samples_have_one_report()
    ensures { SamplesHaveOneReport }
{}

/// States that an input has exactly one output.
pub fn answers_are_unique()
    ensures { AnswersAreUnique }
{}

/// States that the rules in a reply are the rules of the function's set that remain after the arguments are supplied.
pub fn rules_left_remain()
    ensures { RulesLeftRemain }
{}

/// States that an array among the arguments of a call leaves no rule, as no rule of a built-in function takes one.
pub fn arrays_leave_no_rule()
    ensures { ArraysLeaveNoRule }
{}
