//! What the words of the program's start ask for.

use aa_start::{ArgumentFault, Plan, plan};
use std::alloc::{AllocError, Global};

// Arguments, and what they are answered with: a run over a folder with these names, one in complain mode, the help, the version, or nothing.
// An empty word is written ''.
const ROWS: &str = "\
none/ => run /etc/apparmor.d none/
usr.bin.man local/ /tmp/x => run /etc/apparmor.d usr.bin.man local/ /tmp/x
a a => run /etc/apparmor.d a a
-- -odd -V => run /etc/apparmor.d -odd -V
- help '' => run /etc/apparmor.d - help ''
a -- b => run /etc/apparmor.d a b
--help => help
-h => help
a -hx -x => help
--version => version
-V => version
a -Vx --help => version
=> bad
-- => bad
--base x => bad
a -x => bad
-v => bad
--version=1 => bad
--versio => bad
-C -b /srv x => complain /srv x
-C x => complain /etc/apparmor.d x
x -C => complain /etc/apparmor.d x
-b /srv /x => run /srv /x
-b/srv x => run /srv x
-b=/srv x => run /srv x
-b== x => run = x
-b= x => run '' x
-bC x => run C x
-Cb /srv x => complain /srv x
-CCb/srv x => complain /srv x
x -b /srv y => run /srv x y
-b /srv x -b /etc -C => complain /etc x
-b - x => run - x
-b /srv -- -C => run /srv -C
-Ch a => help
-CV => version
-C => bad
x -b => bad
-b -- x => bad
-b -C x => bad
-b --help x => bad
-Cx a => bad
-x --version => bad
";

// Parts of the help.
const HELP: &str =
    "Usage: aaset [OPTIONS] <NAME>...|-C |-b <DIR>|add FILE |replace FILE |remove FILE |\
    enforce NAME, complain NAME |disable NAME |undo [N], redo [N] |mark NAME |back NAME |\
    ask file NAME ACCESS OWNED PATH |ask exec NAME OWNED PATH |ask cap NAME CAPABILITY |\
    ask net NAME DOMAIN TYPE |list |show NAME |/etc/apparmor.d)|  0  |  1  |  2  |  3  ";

// The program's own name, and then the words of these arguments.
fn started(alloc: Global, arguments: &str) -> Result<Vec<String>, AllocError> {
    let mut words = Vec::new(alloc);
    words.push(String::from_str(alloc, "aaset")?)?;
    for word in arguments.split(' ') {
        match word {
            "" => {}
            "''" => words.push(String::new(alloc))?,
            _ => words.push(String::from_str(alloc, word)?)?,
        }
    }
    Ok(words)
}

fn push_word(line: &mut String, word: &str) -> Result<(), AllocError> {
    line.push_str(" ")?;
    line.push_str(if word.is_empty() { "''" } else { word })
}

// A plan as a row prints it.
fn told(alloc: Global, plan: &Plan) -> Result<String, AllocError> {
    let mut line = String::from_str(
        alloc,
        if plan.force_complain {
            "complain"
        } else {
            "run"
        },
    )?;
    push_word(&mut line, plan.base.as_str())?;
    for name in &plan.names {
        push_word(&mut line, name.as_str())?;
    }
    Ok(line)
}

fn is_wanted(alloc: Global, answered: &Result<Plan, ArgumentFault>, want: &str) -> bool {
    match answered {
        Ok(plan) => told(alloc, plan).is_ok_and(|line| line.as_str() == want),
        Err(ArgumentFault::Help(text)) => {
            want == "help" && HELP.split('|').all(|part| text.as_str().contains(part))
        }
        Err(ArgumentFault::Version(text)) => want == "version" && text.as_str() == "aaset 0.1.0\n",
        Err(ArgumentFault::Bad) => want == "bad",
        Err(_) => false,
    }
}

fn is_answered(alloc: Global, row: &str) -> bool {
    match row.split_once("=> ") {
        Some((arguments, want)) => match started(alloc, arguments) {
            Ok(words) => is_wanted(alloc, &plan(alloc, &words), want),
            Err(_) => false,
        },
        None => false,
    }
}

#[test]
fn arguments_are_answered(rt: HostRuntime) {
    for row in ROWS.lines() {
        assert!(rt; is_answered(rt.alloc(), row), "{row}");
    }
}
