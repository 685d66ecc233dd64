//! What the arguments ask for.

use aa_profile_parsing::Language;
use aatry_report::Form;

/// A command, the language by which it reads policy, and the form of its report, verbose or not.
#[derive(Drop)]
pub struct Call {
    /// The language: 4, unless another is named.
    pub language: Language,
    /// The form: lines, unless records are asked for.
    pub form: Form,
    /// Whether each file that is left out is reported in lines too, and not only how many there are.
    pub verbose: bool,
    /// The command.
    pub command: Command,
}

/// A command, with what its arguments say.
#[derive(Drop)]
pub enum Command {
    /// Files of a folder of policy are to be checked.
    Check(Check),
    /// Rules that decide nothing are to be looked for in files of a folder of policy.
    CheckRules(RulesCheck),
    /// Transcripts are to be tested over a folder of policy.
    Test(Test),
    /// Who would be allowed, asked of a folder of policy: the words are those of a question without the asker.
    Who(Asking),
    /// Why a question is answered as it is, asked of a folder of policy.
    Why(Asking),
    /// Whether something is never allowed, or always, for all files of a pattern, asked of a folder of policy: the words are those of the question.
    Paths(AllPaths),
    /// Under which profiles programs may run that given ones start, asked of a folder of policy: the words are the names of those who start them.
    Reach(Reach),
    /// The requests of logs, asked of a folder of policy.
    Log(Logs),
    /// Two folders of policy are to be compared.
    Diff(Comparison),
    /// Two folders of policy are to be compared for all paths.
    DiffAll(PathComparison),
    /// Commands are to be taken over a folder of policy, as they come.
    Session(Session),
}

/// Which files are to be checked.
#[derive(Drop)]
pub struct Check {
    /// The folder of policy.
    pub base: String,
    /// The files of the folder to check, in this order. Where there is none, all files at its top are meant.
    pub names: Vec<String>,
}

/// In which files rules that decide nothing are to be looked for.
#[derive(Drop)]
pub struct RulesCheck {
    /// The folder of policy, and the files.
    pub check: Check,
    /// Whether rules of included files are tried, too.
    pub included: bool,
    /// How many sets of states are looked at, at most, for each profile, child and hat.
    pub limit: usize,
}

/// Which transcripts are to be tested.
#[derive(Drop)]
pub struct Test {
    /// The folder of policy.
    pub base: String,
    /// The paths of the transcripts, in this order: one at least.
    pub paths: Vec<String>,
    /// Whether the replies are to be accepted: put in place of the wanted lines.
    pub accept: bool,
}

/// A question to a folder of policy.
#[derive(Drop)]
pub struct Asking {
    /// The folder of policy.
    pub base: String,
    /// The words of the question, in this order: one at least. They may make no question.
    pub words: Vec<String>,
}

/// A question to a folder of policy about all files of a pattern.
#[derive(Drop)]
pub struct AllPaths {
    /// The folder of policy, and the words of the question: one at least. They may make no question.
    pub asking: Asking,
    /// Whether the claim is that all of the access is allowed to each file, and not that none of it is to any.
    pub always: bool,
    /// Whether only names are reported, without rules.
    pub names: bool,
    /// How many sets of states are looked at, at most, for each profile, child or hat in question.
    pub limit: usize,
}

/// A question to a folder of policy: under which profiles programs may run.
#[derive(Drop)]
pub struct Reach {
    /// The folder of policy, and the names of those who start programs: one at least.
    pub asking: Asking,
    /// Whether the report is a graph.
    pub dot: bool,
    /// How many sets of states are looked at, at most, for each profile, child or hat that starts programs.
    pub limit: usize,
}

/// The logs whose requests are asked of a folder of policy.
#[derive(Drop)]
pub struct Logs {
    /// The folder of policy.
    pub base: String,
    /// The paths of the logs, in this order, where `-` is standard input. Where there is none, standard input is meant.
    pub paths: Vec<String>,
    /// How their requests are reported.
    pub telling: LogTelling,
    /// Which of their lines count.
    pub lines: LogLines,
}

/// How the requests of logs are reported.
#[derive(Clone, Copy, Drop)]
pub struct LogTelling {
    /// Whether the exit status shows that a line can't be read, or that its asker doesn't exist.
    pub strict: bool,
    /// Whether rules that can be pasted into profiles are reported in place of the answers.
    pub rules: bool,
    /// Whether wider rules are offered beside these.
    pub globs: bool,
}

/// Which lines of logs count.
#[derive(Drop)]
pub struct LogLines {
    /// Whether only the lines count that log a request as DENIED.
    pub denied: bool,
    /// The profile whose requests count, by its full name, if only those of one do: its own and those of its children and hats.
    pub profile: Option<Vec<u8>>,
    /// The first second, since 1970, from which on requests count, if there is one.
    pub since: Option<u64>,
}

/// Which folders of policy are to be compared, and by which requests beside their profiles.
#[derive(Drop)]
pub struct Comparison {
    /// The old folder of policy.
    pub old: String,
    /// The new folder of policy.
    pub new: String,
    /// Where the requests come from, if the folders are compared by requests.
    pub source: Option<RequestSource>,
    /// Whether it is reported how much of each profile, child and hat differs, and not what does.
    pub stat: bool,
}

/// Which folders of policy are to be compared for all paths, and for which profiles.
#[derive(Drop)]
pub struct PathComparison {
    /// The old folder of policy.
    pub old: String,
    /// The new folder of policy.
    pub new: String,
    /// The full names of the profiles, children and hats that are to be compared, in this order. Where there is none, all are meant.
    pub who: Vec<String>,
    /// Whether it is reported how much of each profile, child and hat differs, and not what does.
    pub stat: bool,
    /// Whether answers that differ in nothing but what is written to the log count as the same.
    pub quiet_audit: bool,
    /// How many sets of states are looked at, at most, for each profile, child or hat that is compared.
    pub limit: usize,
}

/// Where requests come from.
#[derive(Drop)]
pub enum RequestSource {
    /// In a log, by its path.
    Log(String),
    /// In a file of questions, by its path.
    Questions(String),
}

/// The folder of policy for a session.
#[derive(Drop)]
pub struct Session {
    /// The folder of policy.
    pub base: String,
}
