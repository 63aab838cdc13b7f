//! The headline, and what it says of single runs and calls. Each is a theorem: the contract of a function that does
//! nothing.

ghost use Rattle.commands.specs.runs.CallsInTurn.{CallsInTurn};
ghost use Rattle.commands.specs.runs.EveryRun.{EveryRunFollows};
ghost use Rattle.commands.specs.runs.RunsInTurn.{FollowAnswersAsExplain, ManyAnswersAsFirst, NextGoesOn, RunsGoOn, RunsInTurn};

/// Shows that every run of a session follows the list of all routes. For pages of any sizes, with the session written
/// and read anywhere between them, its pages in turn are the next routes of the list, best first, none left out and none
/// twice. Its text depends only on the number of routes given. A page that runs out of memory gives nothing and leaves
/// all as it was. A run begins with a session just started, or goes on from the place of a text that verifying accepts.
///
/// Every list of events has a run, as long as the sessions that it writes have texts, which all in memory have. Each
/// beginning of a list is a list of events, too, so this holds at every place of a run. Pages may have any size here;
/// the calls take 0 to 10000.
#[tactic(auto, using(crate::proofs::RunLemmas::RunsFollow::runs_follow))]
pub fn every_run()
    ensures { EveryRunFollows }
{}

/// Shows that a run `next` over the session text of a place of the list writes the report of the next page, with ranks
/// that go on from that place, and then the session text of the place after it. If one of its writers fails, that
/// writer holds a beginning. If an allocation fails or the session's reader fails, nothing is written.
pub fn next_goes_on()
    ensures { NextGoesOn }
{}

/// Shows that runs of the program list a plan page by page: a run `first` that keeps its session, and then runs `next`,
/// each over the session text that the one before wrote. Over one plan text, the runs that end with
/// [`Status::Done`](crate::Status::Done) write the reports of the first routes of the list, each from where the one
/// before ended.
pub fn runs_in_turn()
    ensures { RunsInTurn }
{}

/// Shows that calls of the program list a plan page by page, from their words to the files that they leave. A call
/// `first` keeps its session, and then each call `next` goes on from the file in which the one before left its own.
/// Over a system in which a file reads as what was last written there, the calls that end with
/// [`Status::Done`](crate::Status::Done) print the reports of the first routes of the list, each from where the one
/// before ended. At each path they leave the session text of its place. A call `next` that keeps no session may follow
/// them: it prints the page from there, and leaves no file.
pub fn calls_in_turn()
    ensures { CallsInTurn }
{}

/// Shows that runs `next` go on page by page from any session text that `verify` accepts, in either version. Their
/// pages joined are the next routes of the list. The text that the last of them leaves is that of the place after them,
/// and a run over it that keeps no session reports the page from there.
pub fn runs_go_on()
    ensures { RunsGoOn }
{}

/// Shows that a run `many` answers each request as a run `first` does. Over one plan text, if it ends with
/// [`Status::Done`](crate::Status::Done), it writes for each request in order its line and then the bytes that a run
/// `first` for that request and count writes as its report, whether that run keeps its session or not.
pub fn many_answers_as_first()
    ensures { ManyAnswersAsFirst }
{}

/// Shows that a run `follow` answers each list as a run `explain` does. Over one plan text, if it ends with
/// [`Status::Done`](crate::Status::Done), it writes for each list in order its line and then the bytes that a run
/// `explain` for these contacts and that request writes, if that ends with yes or no.
pub fn follow_answers_as_explain()
    ensures { FollowAnswersAsExplain }
{}
