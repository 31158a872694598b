//! What `--help` prints, of the program and of each word.

/// What `--version` prints.
pub(crate) const VERSION: &str = "racf 0.1.0";

/// What `--help` prints.
pub(crate) const HELP: &str = "usage: racf init
       racf init over
       racf script IN OUT
       racf script --issuer ID IN OUT
       racf check IN OUT
       racf check --issuer ID IN OUT
       racf ask IN OUT
       racf ask -n IN OUT
       racf run K NAME..
       racf run --issuer ID K NAME..
       racf compact
       racf make N OUT
       racf WORD --help

init makes a new database in the files racf.db1 and racf.db2 of this folder: the user IBMUSER and the group SYS1. Where
either holds anything it is refused, and init over makes a new database whatever they held.
script opens that database, works the lines of the file IN, and writes a reply or an answer for each to the file OUT.
IN and OUT differ, or both are -: standard input and standard output. A command that is answered ACCEPTED stands on the
disk, and outlives the program and the machine's power.
check tries the file IN: it writes to OUT what script would write now, and keeps nothing of it. It only reads the
database, which others may read or work meanwhile.
ask answers the requests of the file IN, and nothing else: a line that begins with any other word is refused. With -n
each line of OUT begins with the number of the line of IN that it answers. It too only reads the database.
run opens it too, and works the first K of the files NAME.., from 1 to 4, as decks, and the others, at most 16, as
request files, all side by side, each in a thread of its own. The output of NAME is NAME.out. A deck holds commands and
lines *ISSUER, a request file requests; each request is answered on what all decks have done by then. No NAME stands
twice, and none is the output of another.
Behind script, check and run, --issuer ID lets ID give all commands, and a line that names another issuer is refused:
so are lines worked that others wrote.
compact opens it and writes a checkpoint of it: all that the database holds now, and no commands behind it. Users,
profiles, options and the number of the last command stay as they are. Opening it is then as fast as reading the
checkpoint, however many commands led there, and the commands from then on have all of the journal's room again. The
checkpoint is written into the one of the two files that isn't in use, which is in use from then on: whatever interrupts
it, the database is there.
make writes a stream for N users, from 1 to 10,000, to the file OUT: commands that define them, and requests by each
of them. Its last line is a comment with the counts of what script answers to it on a new database.

Lines are RACF's commands, which IBMUSER gives until a line names another issuer, and requests. A command goes on in the
next line behind - or +. The commands:

  ADDUSER ALTUSER DELUSER         users
  ADDGROUP ALTGROUP DELGROUP      groups
  CONNECT REMOVE                  who is connected to a group
  ADDSD ALTDSD DELDSD             profiles of data sets
  RDEFINE RALTER RDELETE          profiles of the other classes
  PERMIT                          access lists
  SETROPTS                        options

  *ISSUER user [GROUP(group)]     names who gives the commands behind it
  VERIFY acee user [operands]     verifies a user and keeps his ACEE under this name; operands are GROUP(group),
                                  TERMINAL(name), CONSOLE(name), JESINPUT(name), APPCPORT(name), APPL(name),
                                  SECLABEL(label)
  AUTH acee class name level      asks for access; level is READ, UPDATE, CONTROL or ALTER
  FASTAUTH acee class name level  the same of a RACLISTed class
  DELETE acee                     takes the ACEE away
  *AFTER number                   tells where fewer commands have been accepted

Blank lines and lines that begin with /* are skipped. The exit status is 0, or 4 where a line was refused; 8 usage,
12 read fault, 16 write fault, 20 disk fault, 24 the files hold no database or are damaged, 28 no memory, 36 input too
long. From 8 on standard error says it, and behind it, line by line, which files it is about, and why.";

/// What a line `?` is answered at a terminal.
pub(crate) const TYPED: &str =
    "commands: ADDUSER ALTUSER DELUSER ADDGROUP ALTGROUP DELGROUP CONNECT REMOVE ADDSD ALTDSD DELDSD
          RDEFINE RALTER RDELETE PERMIT SETROPTS; one goes on in the next line behind - or +
*ISSUER user [GROUP(group)]
VERIFY acee user [GROUP(group)] [TERMINAL(name)] [CONSOLE(name)] [JESINPUT(name)] [APPCPORT(name)] [APPL(name)]
                 [SECLABEL(label)]
AUTH acee class name level      FASTAUTH acee class name level      DELETE acee      *AFTER number";

/// What `racf init --help` prints.
const INIT: &str = "usage: racf init
       racf init over

init makes a new database in the files racf.db1 and racf.db2 of this folder: the user IBMUSER and the group SYS1. Where
either holds anything it is refused, and nothing is opened. init over makes a new database whatever they held: what was
there is gone.";

/// What `racf script --help` prints.
const SCRIPT: &str = "usage: racf script IN OUT
       racf script --issuer ID IN OUT

script opens the database of this folder, works the lines of the file IN, and writes a reply or an answer for each to
the file OUT, which is made anew. IN and OUT differ, or both are -: standard input and standard output. With --issuer
ID gives all commands, and lines *ISSUER are refused. A file of that name is ./--issuer.";

/// What `racf check --help` prints.
const CHECK: &str = "usage: racf check IN OUT
       racf check --issuer ID IN OUT

check reads the database of this folder, works the lines of the file IN, and writes to the file OUT what script would
write now; nothing of it is kept, and the database stays as it is. IN and OUT differ, or both are -: standard input and
standard output. With --issuer ID gives all commands, and lines *ISSUER are refused.";

/// What `racf ask --help` prints.
const ASK: &str = "usage: racf ask IN OUT
       racf ask -n IN OUT

ask reads the database of this folder, and writes the answers to the requests of the file IN to the file OUT, which is
made anew: each request is answered on what the database holds now. A line whose first word is no request's is refused,
so nothing in IN is a command. With -n each line of OUT begins with the number of the line of IN that it answers. IN and
OUT differ, or both are -: standard input and standard output. A file of the name -n is ./-n.";

/// What `racf run --help` prints.
const RUN: &str = "usage: racf run K NAME..
       racf run --issuer ID K NAME..

run opens the database of this folder, and works the first K of the files NAME.., from 1 to 4, as decks, and the others,
at most 16, as request files, all side by side. The output of NAME is NAME.out, which is made anew. No NAME stands
twice, and none is the output of another. With --issuer ID gives the commands of all decks, and lines *ISSUER are
refused.";

/// What `racf compact --help` prints.
const COMPACT: &str = "usage: racf compact

compact opens the database of this folder and writes a checkpoint of it: all that it holds now, and no commands behind
it. What it holds and the number of the last command stay as they are.";

/// What `racf make --help` prints.
const MAKE: &str = "usage: racf make N OUT

make writes a stream for N users, from 1 to 10,000, to the file OUT, to try the program on. It opens no database.";

/// A word that begins what the program is started with: it, its form, and what its help prints.
#[derive(Clone, Copy)]
pub(crate) struct Word {
    /// The word.
    pub(crate) name: &'static str,
    /// What follows it.
    pub(crate) form: &'static str,
    /// What its help prints.
    pub(crate) help: &'static str,
}

/// The words.
const WORDS: [Word; 7] = [
    Word {
        name: "init",
        form: "nothing behind it, or over",
        help: INIT,
    },
    Word {
        name: "script",
        form: "IN OUT behind it, two files that differ or both -, or --issuer ID IN OUT",
        help: SCRIPT,
    },
    Word {
        name: "check",
        form: "IN OUT behind it, two files that differ or both -, or --issuer ID IN OUT",
        help: CHECK,
    },
    Word {
        name: "ask",
        form: "IN OUT behind it, two files that differ or both -, or -n IN OUT",
        help: ASK,
    },
    Word {
        name: "run",
        form: "K NAME.. behind it, 1 to 4 decks, at most 16 request files, or --issuer ID K NAME..",
        help: RUN,
    },
    Word {
        name: "compact",
        form: "nothing behind it",
        help: COMPACT,
    },
    Word {
        name: "make",
        form: "N OUT behind it, a number from 1 to 10000 and a file",
        help: MAKE,
    },
];

/// The word of this name.
pub(crate) fn word_of(name: &str) -> Option<Word> {
    WORDS.iter().find(|word| word.name == name).copied()
}
