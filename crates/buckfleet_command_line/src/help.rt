//! The texts of the help, in lines of at most 80 columns.

/// What the program does.
pub(crate) const PROGRAM: &str =
    "Cut felled stems into the most valuable logs by an instruction file, and check,
compare and show how they were cut. Without a command: read an instruction file,
a | and a stem file from standard input, and print what buck prints of them.";

/// The version, and the logic by which the toolchain proved it.
const VERSION: &str = "0.1.0 (logic dac8208d650f15bf)";

/// The version with the commit, which `git archive` writes between the dollars and in their place.
const VERSION_OF_COMMIT: &str = "0.1.0 (commit $Format:%h$, logic dac8208d650f15bf)";

/// Returns the version; of a program that was built from an archive of a commit, with that commit.
pub(crate) fn version() -> &'static str {
    // The build can't ask git for the commit, so only an archive has it.
    if VERSION_OF_COMMIT.contains('$') {
        VERSION
    } else {
        VERSION_OF_COMMIT
    }
}

/// Long help for the program: examples, exit statuses, fault lines.
pub(crate) const COMMANDS: &str = "Examples:
  buckfleet buck pine.apt pine.stm
  (cat pine.apt; printf '|'; cat pine.stm) | buckfleet

Exit statuses:
  0  done; also help and version
  1  a file is refused
  2  usage error, or not 1 to 64 stem files
  3  memory ran out, or there are more than 1000000 stems
  4  a journal is not lawful, or not as asked, or a fleet did not close well
  5  a file can't be read, or the output or a journal can't be written
After 1, 3, 4 and 5, and after too many stem files, one line on standard error
names the fault. explain LINE puts it in words; --explain after a command also
says what is in the files. A file - is standard input, and an OUT - is standard
output. See docs/COMMANDS.md.";

/// Long help for `buck`: output, examples, exit statuses.
pub(crate) const BUCK: &str =
    "Prints a STEM line for each stem, a LOG line for each of its logs, and a TOTAL
line at the end.

Examples:
  buckfleet buck pine.apt pine.stm
  buckfleet buck -q pine.apt pine.stm > pine.out

Exit statuses:
  0  all was printed
  1  a file is refused
  2  usage error
  3  memory ran out
  5  a file can't be read, or the output can't be written
After 1, 3 and 5 one line on standard error names the fault; explain puts it in
words.";

/// Long help for `check`: output, examples, exit statuses.
pub(crate) const CHECK: &str =
    "Replays the journal. Prints LAWFUL and the number of postings if no cutting of a
stem is worth more than the one in the journal, at the prices in force, and if
each price keeps the price relation with the targets in force and what was cut
before. With stem files, at most 64, harvester k must also have cut exactly the
stems of the k-th file, in file order, and a harvester without a file none. With
a rule, each price must also be the one that the rule gives. LAWFUL does not
mean that these stems were felled, or that all felled wood is in the journal.
Each file may have at most 67108864 bytes.

Examples:
  buckfleet check --rule linear morning.apt morning.jrn || echo not lawful
  buckfleet check morning.apt morning.jrn morning_1.stm morning_2.stm

Exit statuses:
  0  the journal is lawful, and as the stem files and the rule say
  1  a file is refused
  2  usage error, or more than 64 stem files
  3  memory ran out
  4  the journal is not lawful, or not as the stem files or the rule say
  5  a file can't be read, or the output can't be written
After 1, 3, 4 and 5, and after too many stem files, one line on standard error
names the fault; explain puts it in words.";

/// Long help for `fleet`: output, files, examples, exit statuses.
pub(crate) const FLEET: &str =
    "Harvester k cuts the stems of the k-th stem file, in file order; 1 to 64 stem
files. The order in which harvesters commit is not fixed, so two runs of several
harvesters may have two histories; with --in-turn the same files always have the
same one. Prints an ENTRY line for each cut, then for each assortment a CLASS
line for each class and its DEGREE, and a TOTAL line at the end. Each worth is
at the prices in force when the stem was cut; view shows the worth at base
prices, and what steering cost.

The journal, which check reads, is written before the report. Each file may have
at most 67108864 bytes, and check reads no longer journal. A journal does not
hold the numbers of --period and --limit: check, report, view and table need the
same options again.

The input files are opened in the order of the arguments, then OUT, which is
created if it is missing. OUT is never one of the input files. An old OUT stays
as it was until the whole journal is written, and is then replaced at once.

Examples:
  buckfleet fleet --rule linear morning.apt morning_1.stm
  buckfleet fleet --journal morning.jrn morning.apt morning_1.stm morning_2.stm
  buckfleet fleet --in-turn --period 5 morning.apt morning_1.stm morning_2.stm

Exit statuses:
  0  all was printed
  1  a file is refused
  2  usage error, or not 1 to 64 stem files
  3  memory ran out, or there are more than 1000000 stems
  4  the fleet did not close well
  5  a file can't be read, or the output or OUT can't be written
After 1, 3, 4 and 5, and after too many stem files, one line on standard error
names the fault; explain puts it in words.";

/// Long help for `sweep`: output, options, examples, exit statuses.
pub(crate) const SWEEP: &str =
    "Prints CSV: a header line, then a line for each combination: for each rule all
periods, for each period all limits. Each is a run of its own, as by fleet
--in-turn without a journal. A line has the number of price lists, the degree of
each assortment and the least of them, the worth at base prices of what was cut
and of the best cuttings, the cost of steering in ten-thousandths of the latter,
and the volume. A LIST is one number, or several with a comma between; at most
10000 runs. See \"The table of a sweep\" in docs/FORMATS.md.

FILE has the targets of assortment k in its k-th item 918 1, row by row; other
items are skipped, so an instruction file will do. With --draws each combination
also runs on N shuffled orders of the stems, each stem with its harvester, and
six more columns have the least, the mean and the greatest of the least degree
and of the cost: a difference smaller than their spread may be chance. The same
seed gives the same orders, which are the same for each line.

OWN is an owner's contract, as for appraise. Each line then ends with what it
pays for what was cut, what the best cuttings would bring, how many logs it does
not buy, and the loss in ten-thousandths of the best; with --draws also with the
least, the mean and the greatest loss. To compare instructions with different
prices, compare losses: each cost is at the instruction's own prices.

Examples:
  buckfleet sweep --rule linear --period 1,5,20 morning.apt morning_1.stm
  buckfleet sweep --rule steady --rule step morning.apt morning_1.stm
  buckfleet sweep --targets tuesday.txt --draws 20 morning.apt morning_1.stm
  buckfleet sweep --own mill.apt --rule root --limit 20,40 tuned.apt stand.stm

Exit statuses:
  0  the table was printed
  1  a file is refused
  2  usage error, or not 1 to 64 stem files
  3  memory ran out, or there are more than 1000000 stems
  5  a file can't be read, or the output can't be written
After 1, 3 and 5, and after too many stem files, one line on standard error
names the fault; explain puts it in words.";

/// Long help for `wishes`: output, options, examples, exit statuses.
pub(crate) const WISHES: &str =
    "Prints CSV: a header line, a line of the run with all targets, and a line for
each class whose target is not the share of logs that the class has unsteered:
the run by the same rule with that target moved half way to this share. A gain
is the worth at base prices of what was cut, less that of the run with all
targets. The greatest gain comes first. With draws the greatest sum of gains
does, and six more columns have the least, the mean and the greatest of the gain
and of the change of the degree. FILE, N and S are those of sweep. See \"The
table of wishes\" in docs/FORMATS.md.

Examples:
  buckfleet wishes --rule linear morning.apt morning_1.stm morning_2.stm
  buckfleet wishes --rule step --draws 5 morning.apt morning_1.stm

Exit statuses:
  0  the table was printed
  1  a file is refused
  2  usage error, or not 1 to 64 stem files
  3  memory ran out, or there are more than 1000000 stems
  5  a file can't be read, or the output can't be written
After 1, 3 and 5, and after too many stem files, one line on standard error
names the fault; explain puts it in words.";

/// Long help for `tune`: output, options, examples, exit statuses.
pub(crate) const TUNE: &str =
    "Prints the instruction with other base prices: the price of a class is the mean
of its prices in force over all stems, which are cut as by fleet --in-turn. Cut
a similar stand by it, and take about four tenths of the usual limit both here
and there. A class that is not bought stays so. --period and --limit are for
this run alone: the printed instruction keeps its own. FILE is that of sweep,
and its targets are printed. Items that docs/FORMATS.md does not list are lost.

Examples:
  buckfleet tune --period 1 --limit 50 mill.apt bank.stm > tuned.apt
  buckfleet tune --targets tuesday.txt mill.apt bank_1.stm bank_2.stm

Exit statuses:
  0  the instruction was printed
  1  a file is refused
  2  usage error, or not 1 to 64 stem files
  3  memory ran out, or there are more than 1000000 stems
  5  a file can't be read, or the output can't be written
After 1, 3 and 5, and after too many stem files, one line on standard error
names the fault; explain puts it in words.";

/// Long help for `appraise`: output, files, examples, exit statuses.
pub(crate) const APPRAISE: &str =
    "Prints CSV: what the cuts of the journals bring under a contract, and what the
best cuttings under it would have brought: a line for each harvester, for each
assortment, and for all. OWN is the contract, written as an instruction file. It
may have other prices, price kinds and diameters than APT, but needs the same
module and, for each assortment, the same species, grades, lengths and trim. A
log that it does not buy is worth 0. The journals are of APT, and must be lawful
for it. See \"The table of an appraisal\" in docs/FORMATS.md.

Examples:
  buckfleet appraise morning.apt morning.jrn own.apt
  buckfleet appraise mill.apt monday.jrn tuesday.jrn own.apt > week.csv

Exit statuses:
  0  the table was printed
  1  a file is refused
  2  usage error
  3  memory ran out
  4  a journal is not lawful
  5  a file can't be read, or the output can't be written
After 1, 3, 4 and 5 one line on standard error names the fault; explain puts it
in words.";

/// Long help for `compare`: output, examples, exit statuses.
pub(crate) const COMPARE: &str =
    "Prints CSV: a line for each figure of all, of each assortment, and of each
harvester of either run: its value in the first journal, its value in the
second, and the second less the first. Both journals are of one instruction;
their stems may differ. Of two numbers in a LIST the first is for the first
journal. See \"The table of a comparison\" in docs/FORMATS.md.

Examples:
  buckfleet compare morning.apt linear.jrn step.jrn
  buckfleet compare --period 5,1 mill.apt monday.jrn tuesday.jrn

Exit statuses:
  0  the table was printed
  1  a file is refused
  2  usage error
  3  memory ran out
  4  a journal is not lawful
  5  a file can't be read, or the output can't be written
After 1, 3, 4 and 5 one line on standard error names the fault; explain puts it
in words.";

/// Long help for `live`: requests and answers, examples, exit statuses.
pub(crate) const LIVE: &str =
    "Standard input has one request a line: the items of one stem, as in a stem file,
or new targets: 982 2 and one number for each class. Before either, 950 1 and a
number from 1 to 64 names the harvester; the default is 1. Each request is
answered before the next is read: a stem with its STEM and LOG lines, at the
prices in force, targets with their DEMAND line, and a refused request with its
fault line. A refused request changes nothing, and the run goes on. A line
without items is skipped. A last line that ends with neither ~ nor a line feed
is refused: its sender may have died within it. The journal, which check reads
with the same options, is written at the end of the input.

A stem with 955 1 1 is previewed: it has a PREVIEW line in place of STEM, and
its LOG lines. A stem with 956 1 and a start, a length and an assortment for
each log, from the butt on, has an OWN line: what these logs are worth beside
the best ones, or which of them can't be cut, and why. Neither is posted.

Examples:
  buckfleet live --rule linear --journal day.jrn pine.apt < pipe
  echo '951 1 7~952 1 1~953 1 310 280 250 220~' | buckfleet live pine.apt

Exit statuses:
  0  all requests were answered, refused ones too
  1  the instruction file is refused
  2  usage error
  3  memory ran out
  5  a file or the input can't be read, or the output or OUT can't be written
After 1, 3 and 5 one line on standard error names the fault; explain puts it in
words.";

/// Long help for `report`: output, examples, exit statuses.
pub(crate) const REPORT: &str =
    "Replays the journal as check does. If it is lawful, prints the report of the
fleet that wrote it, byte for byte: an ENTRY or DEMAND line for each posting,
then for each assortment a CLASS line for each class and its DEGREE, and a TOTAL
line at the end.

Examples:
  buckfleet report morning.apt morning.jrn
  buckfleet report morning.apt morning.jrn | diff - morning.out

Exit statuses:
  0  all was printed
  1  a file is refused
  2  usage error
  3  memory ran out
  4  the journal is not lawful
  5  a file can't be read, or the output can't be written
After 1, 3, 4 and 5 one line on standard error names the fault; explain puts it
in words.";

/// Long help for `view`: output, examples, exit statuses.
pub(crate) const VIEW: &str =
    "Prints one HTML page, which shows what steering did to the wood compared with
the best cuttings at base prices, how close the logs came to the wanted
proportions, which classes lack most logs and how their prices moved, what
grades and steering cost, and how single stems were cut. Several journals, such
as those of a week, are of one instruction; their logs and sums are added. The
page loads nothing, and holds no date. If a journal is not lawful, the page
shows its first fault, and the status is 4.

Examples:
  buckfleet view morning.apt morning.jrn > morning.html
  buckfleet view mill.apt monday.jrn tuesday.jrn > week.html

Exit statuses:
  0  the page was printed
  1  a file is refused
  2  usage error
  3  memory ran out
  4  the journal is not lawful
  5  a file can't be read, or the output can't be written
After 1, 3, 4 and 5 one line on standard error names the fault; explain puts it
in words.";

/// Long help for `table`: output, examples, exit statuses.
pub(crate) const TABLE: &str =
    "Prints CSV: a header line, then a line for each class, posting or log, for each
assortment at up to 200 points of the history (degrees) or in total
(assortments), or for each class that lacks logs, most first (lacking). Several
journals are of one instruction. If one is not lawful, nothing is printed. See
\"Tables of a journal\" in docs/FORMATS.md.

Examples:
  buckfleet table morning.apt morning.jrn classes > classes.csv
  buckfleet table mill.apt monday.jrn tuesday.jrn lacking > lacking.csv

Exit statuses:
  0  the table was printed
  1  a file is refused
  2  usage error
  3  memory ran out
  4  the journal is not lawful
  5  a file can't be read, or the output can't be written
After 1, 3, 4 and 5 one line on standard error names the fault; explain puts it
in words.";

/// Long help for `explain`: output, examples, exit statuses.
pub(crate) const EXPLAIN: &str =
    "Prints one sentence: what is wrong, with the numbers of the line, and what to do
next. The line may be one argument or several.

Examples:
  buckfleet explain replay fault 7 12
  buckfleet explain 'apt fault 8 917 1'

Exit statuses:
  0  the sentence was printed
  2  no such fault line, or usage error
  3  memory ran out
  5  the output can't be written";

/// Help for `--rule`.
pub(crate) const RULE: &str = "Price rule: steady, linear, step or
root";

/// Long help for `--rule`.
pub(crate) const RULES: &str =
    "How prices follow what was cut: steady not at all, linear by how far a
class is off its target, step by the whole span, root by d / (d + s)
of the span, where d is how many logs the class is off its wanted
number and s the standard deviation of that number";

/// Help for `--rule` of `check`.
pub(crate) const CHECKED_RULE: &str = "Rule that prices must follow: steady, linear, step
or root";

/// Help for `--period`.
pub(crate) const PERIOD: &str = "Stems in a period, 1 to 1000 [default: the
instruction's]";

/// Help for `--limit`.
pub(crate) const LIMIT: &str = "How far prices may move, per mille of the base price,
0 to 1000 [default: the instruction's]";

/// Help for `--rule` of `sweep`.
pub(crate) const SWEPT_RULES: &str = "Price rule: steady, linear, step or root; once or
more [default: steady]";

/// Help for `--period` of `sweep`.
pub(crate) const PERIODS: &str = "Stems in a period, each 1 to 1000 [default: the
instruction's]";

/// Help for `--limit` of `sweep`.
pub(crate) const LIMITS: &str = "How far prices may move, per mille of the base price,
each 0 to 1000 [default: the instruction's]";

/// Help for `--journal`.
pub(crate) const OUT: &str = "File that the journal is written into";

/// Help for `--quiet`.
pub(crate) const QUIET: &str = "Suppress progress and warnings";

/// Help for `--explain`.
pub(crate) const EXPLAINED: &str = "Say in words what is wrong, before the fault line";

/// Help for `--threads`.
pub(crate) const THREADS: &str = "Most threads at once, 1 to 64 [default: the number of
processors, or 4 if it is unknown]";

/// Help for `--in-turn`.
pub(crate) const IN_TURN: &str = "Cut one stem of each file in each round, in one thread";

/// Long help for `--in-turn`.
pub(crate) const IN_TURNS: &str =
    "Cut in rounds, in one thread: in each round the harvesters cut one
stem each, in the order of the files. A harvester with no stems left
is skipped. The same files always have the same history";

/// Help for `--period` of `compare`.
pub(crate) const COMPARED_PERIODS: &str = "Stems in a period, 1 to 1000, or one number for each
journal [default: the instruction's]";

/// Help for `--limit` of `compare`.
pub(crate) const COMPARED_LIMITS: &str = "How far prices may move, per mille of the base price,
0 to 1000, or one number for each journal [default: the
instruction's]";

/// Help for `--targets`.
pub(crate) const TARGETS: &str = "File with the targets [default: the instruction's]";

/// Help for `--own`.
pub(crate) const OWN: &str = "An owner's contract, as an instruction file, that also
prices what is cut; read after all other files";

/// Help for `--draws`.
pub(crate) const DRAWS: &str = "Number of shuffled orders of the stems, 1 to 1000
[default: none]";

/// Help for `--seed`.
pub(crate) const SEED: &str = "Seed of the shuffled orders, 0 to 18446744073709551615
[default: 1]";
