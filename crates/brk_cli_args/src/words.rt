//! The arguments of `brk`: their definitions, and the job that they request. The functions `.._job`
//! read the arguments by the names that `.._command` and `.._arg` give them, and their clauses say
//! which argument comes into which field. No clause says which words the parser gives to which
//! argument; brk_tests_interfaces tests it. docs/brk.1 and completions have the same commands,
//! options and texts.

ghost use Rattle.std.specs.Prelude.{◌≡◌, IfOk, codes, map, option_map, string_bytes};
ghost use Rattle.clap.specs.Matches.{first_value, found_of};
ghost use Rattle.brk_money.specs.Spelling.{day_text};
ghost use Rattle.brk_cli_args.specs.Arguments.{IsNumberOf, IsNumberOr, IsOptionalIdOf, IsOptionalStampOf, text_of_argument, texts_of_argument};
ghost use Rattle.brk_cli_args.specs.Requested.{IsRequestedJob};

use crate::job::Job;
use crate::notes;
use brk_io::UsageFault;
use brk_money::{Day, Id, Stamp, parse_day};
use clap::error::ErrorKind;
use clap::{Arg, ArgAction, ArgMatches, Command, Error, value_parser};
use std::alloc::{AllocError, Global};

// The version of the program, the schema of the files that it writes, and the version of the kit
// that proves it, which is the text after `rattle-kit-` in the output of `rt version`.
const VERSION: &str = "0.2.0 (schema 3, kit 13f)";

// An option `--NAME VALUE` that may be left out; its value is any text.
fn option<'a>(
    alloc: Global,
    name: &'static str,
    value: &'static str,
    help: &'static str,
) -> Arg<'a> {
    Arg::new(alloc, name)
        .long(name)
        .value_name(value)
        .help(help)
}

// A desk is created if the file is missing or empty or has no table of a desk.
fn optional_file_arg<'a>(alloc: Global) -> Arg<'a> {
    option(
        alloc,
        "db",
        "FILE",
        "The file of the desk, created if it is missing or empty (check the path); without it the desk is in memory",
    )
}

// The parser does not check that the file exists.
fn required_file_arg<'a>(alloc: Global) -> Arg<'a> {
    option(alloc, "db", "FILE", "The file of the desk").required(true)
}

// A desk in memory is always new.
fn existing_arg<'a>(alloc: Global) -> Result<Arg<'a>, AllocError> {
    flag_arg(alloc, "existing", "Makes no desk: the file must have one").requires_arg("db")
}

fn timestamp_arg<'a>(alloc: Global) -> Arg<'a> {
    option(
        alloc,
        "at",
        "MS",
        "The clock reading, in milliseconds since 1970-01-01 UTC, never one in the future; without it the clock is read",
    )
    .value_parser(value_parser!(i64).range(0..=Stamp::GREATEST))
}

// The parser accepts any text; `parse_day_arg` checks it after the parsing.
fn day_arg<'a>(alloc: Global, name: &'static str, help: &'static str) -> Arg<'a> {
    option(alloc, name, "DAY", help).required(true)
}

fn subcommand<'a>(
    alloc: Global,
    name: &'static str,
    about: &'static str,
    notes: &'static str,
    args: Vec<Arg<'a>>,
) -> Result<Command<'a>, AllocError> {
    Command::new(alloc, name)
        .about(about)
        .after_help(notes)
        .args(args)
}

fn batch_command<'a>(alloc: Global) -> Result<Command<'a>, AllocError> {
    let args = vec![in alloc;
        optional_file_arg(alloc),
        existing_arg(alloc)?,
        timestamp_arg(alloc),
    ]?;
    subcommand(
        alloc,
        "batch",
        "Reads a batch from standard input and writes a line for each row",
        notes::BATCH,
        args,
    )
}

fn account_arg<'a>(alloc: Global) -> Arg<'a> {
    option(alloc, "account", "ID", "The account")
        .value_parser(value_parser!(u64).range(1..=Id::GREATEST as i64))
        .required(true)
}

fn statement_command<'a>(alloc: Global) -> Result<Command<'a>, AllocError> {
    let args = vec![in alloc;
        required_file_arg(alloc),
        account_arg(alloc),
        day_arg(alloc, "from", "The first day, as 2024-03-01"),
        day_arg(alloc, "to", "The last day"),
    ]?;
    subcommand(
        alloc,
        "statement",
        "Prints the statement of an account: its cash, day by day, and its lots",
        notes::STATEMENT,
        args,
    )
}

fn customer_arg<'a>(alloc: Global) -> Arg<'a> {
    option(
        alloc,
        "customer",
        "ID",
        "The customer; without it the accounts of all customers",
    )
    .value_parser(value_parser!(u64).range(1..=Id::GREATEST as i64))
}

fn statements_command<'a>(alloc: Global) -> Result<Command<'a>, AllocError> {
    let args = vec![in alloc;
        required_file_arg(alloc),
        day_arg(alloc, "from", "The first day, as 2024-03-01"),
        day_arg(alloc, "to", "The last day"),
        customer_arg(alloc),
    ]?;
    subcommand(
        alloc,
        "statements",
        "Prints the statements of all accounts, or of a customer's, one after the other",
        notes::STATEMENTS,
        args,
    )
}

fn audit_command<'a>(alloc: Global) -> Result<Command<'a>, AllocError> {
    let args = vec![in alloc; required_file_arg(alloc)]?;
    subcommand(
        alloc,
        "audit",
        "Recomputes every derived table of a desk, and prints ok if all are right",
        notes::AUDIT,
        args,
    )
}

fn flag_arg<'a>(alloc: Global, name: &'static str, help: &'static str) -> Arg<'a> {
    Arg::new(alloc, name)
        .long(name)
        .action(ArgAction::SetTrue)
        .help(help)
}

fn view_name_arg<'a>(alloc: Global) -> Arg<'a> {
    Arg::new(alloc, "view")
        .value_name("VIEW")
        .help("The name of the view")
        .required(true)
}

// Any number of words, without a name before them.
fn word_list_arg<'a>(
    alloc: Global,
    name: &'static str,
    value: &'static str,
    help: &'static str,
) -> Arg<'a> {
    Arg::new(alloc, name)
        .value_name(value)
        .num_args(0..)
        .help(help)
}

fn ask_command<'a>(alloc: Global) -> Result<Command<'a>, AllocError> {
    let args = vec![in alloc;
        required_file_arg(alloc),
        flag_arg(alloc, "json", "Prints the view as JSON, as over HTTP"),
        flag_arg(
            alloc,
            "heads",
            "Prints the names of the fields first, where all records have the same",
        ),
        view_name_arg(alloc),
        word_list_arg(alloc, "arguments", "ARGUMENT", "The arguments of the view",),
    ]?;
    subcommand(
        alloc,
        "ask",
        "Prints a view of a desk: a CSV row for each record",
        notes::ASK,
        args,
    )
}

fn explain_command<'a>(alloc: Global) -> Result<Command<'a>, AllocError> {
    let words = word_list_arg(
        alloc,
        "words",
        "WORD",
        "What is explained: trade ID, account ID, holding ACCOUNT SYMBOL, or broker ID; write -- before a symbol that begins with a hyphen",
    );
    let args = vec![in alloc; required_file_arg(alloc), words]?;
    subcommand(
        alloc,
        "explain",
        "Prints how the amounts of a trade, an account, a holding or a broker come about",
        notes::EXPLAIN,
        args,
    )
}

fn port_arg<'a>(alloc: Global) -> Arg<'a> {
    option(alloc, "port", "P", "The port of 127.0.0.1")
        .value_parser(value_parser!(u16).range(1..=65_535))
        .required(true)
}

fn streams_arg<'a>(alloc: Global) -> Arg<'a> {
    option(
        alloc,
        "streams",
        "N",
        "The number of streams that are served before the program ends",
    )
    .value_parser(value_parser!(u32).range(1..=1_000_000))
    .default_value("1")
}

fn serve_command<'a>(alloc: Global) -> Result<Command<'a>, AllocError> {
    let args = vec![in alloc;
        port_arg(alloc),
        optional_file_arg(alloc),
        existing_arg(alloc)?,
        timestamp_arg(alloc),
        streams_arg(alloc),
    ]?;
    subcommand(
        alloc,
        "serve",
        "Serves the desk over HTTP, one stream after the other",
        notes::SERVE,
        args,
    )
}

// `brk` without its subcommands. Without arguments, parsing fails with the help of `brk` as the
// error text.
fn program_command<'a>(alloc: Global) -> Result<Command<'a>, AllocError> {
    Command::new(alloc, "brk")
        .version(VERSION)
        .about("A brokerage back office")
        .subcommand_required(true)
        .arg_required_else_help(true)
        .bin_name("brk")
}

fn subcommands<'a>(alloc: Global) -> Result<Vec<Command<'a>>, AllocError> {
    let built = vec![in alloc;
        batch_command(alloc),
        statement_command(alloc),
        statements_command(alloc),
        ask_command(alloc),
        explain_command(alloc),
        audit_command(alloc),
        serve_command(alloc),
    ]?;
    built.into_iter().try_collect(alloc)
}

// `brk` with its subcommands.
fn whole_command<'a>(alloc: Global) -> Result<Command<'a>, AllocError> {
    let subcommands = subcommands(alloc)?;
    program_command(alloc)?.subcommands(subcommands)
}

// Returns a copy of the argument's text, empty if the argument is missing.
fn argument_text(alloc: Global, matches: &ArgMatches<'_>, name: &str) -> Result<String, AllocError>
    ensures { IfOk result (λ text. string_bytes text ≡ text_of_argument (found_of matches.now) name.now) }
{
    String::from_str(alloc, matches.get_str(name).unwrap_or(""))
}

fn db_path(alloc: Global, matches: &ArgMatches<'_>) -> Result<Option<String>, AllocError>
    ensures { IfOk result (λ path. option_map string_bytes path ≡ first_value (found_of matches.now) (codes "db")) }
{
    match matches.get_str("db") {
        Some(path) => Ok(Some(String::from_str(alloc, path)?)),
        None => Ok(None),
    }
}

fn at_timestamp(matches: &ArgMatches<'_>) -> Option<Stamp>
    ensures { IsOptionalStampOf (found_of matches.now) (codes "at") result }
{
    Stamp::new(matches.get_one("at")?)
}

// The parser requires both days; without one the fault is `Day`.
fn parse_day_arg(matches: &ArgMatches<'_>, name: &str) -> Result<Day, UsageFault>
    ensures { IfOk result (λ day. text_of_argument (found_of matches.now) name.now ≡ day_text day) }
{
    let text = matches.get_str(name).unwrap_or("");
    parse_day(text.as_bytes()).ok_or(UsageFault::Day)
}

// The parser requires the account; without it the fault has an empty text.
fn account_id(alloc: Global, matches: &ArgMatches<'_>) -> Result<Id, UsageFault>
    ensures { IfOk result (IsNumberOf (found_of matches.now) (codes "account")) }
{
    match matches.get_one::<u64>("account").and_then(Id::new) {
        Some(account) => Ok(account),
        None => Err(UsageFault::Words(String::new(alloc))),
    }
}

fn statement_job(alloc: Global, matches: &ArgMatches<'_>) -> Result<Job, UsageFault>
    ensures { IfOk result (IsRequestedJob (codes "statement") (found_of matches.now)) }
{
    Ok(Job::Statement {
        db: argument_text(alloc, matches, "db")?,
        account: account_id(alloc, matches)?,
        from: parse_day_arg(matches, "from")?,
        to: parse_day_arg(matches, "to")?,
    })
}

// The parser refuses any other text of a customer.
fn customer_id(matches: &ArgMatches<'_>) -> Option<Id>
    ensures { IsOptionalIdOf (found_of matches.now) (codes "customer") result }
{
    Id::new(matches.get_one("customer")?)
}

fn statements_job(alloc: Global, matches: &ArgMatches<'_>) -> Result<Job, UsageFault>
    ensures { IfOk result (IsRequestedJob (codes "statements") (found_of matches.now)) }
{
    let first = parse_day_arg(matches, "from")?;
    let last = parse_day_arg(matches, "to")?;
    Ok(Job::Statements {
        db: argument_text(alloc, matches, "db")?,
        from: first,
        to: last,
        customer: customer_id(matches),
    })
}

// The parser requires the port; 0 only stands in for it.
fn port_number(matches: &ArgMatches<'_>) -> u16
    ensures { IsNumberOr 16 0 (found_of matches.now) (codes "port") result }
{
    matches.get_one("port").unwrap_or(0)
}

// The parser has a default for the streams; 1 only stands in for them.
fn stream_count(matches: &ArgMatches<'_>) -> u32
    ensures { IsNumberOr 32 1 (found_of matches.now) (codes "streams") result }
{
    matches.get_one("streams").unwrap_or(1)
}

fn serve_job(alloc: Global, matches: &ArgMatches<'_>) -> Result<Job, UsageFault>
    ensures { IfOk result (IsRequestedJob (codes "serve") (found_of matches.now)) }
{
    Ok(Job::Serve {
        port: port_number(matches),
        db: db_path(alloc, matches)?,
        existing: matches.get_flag("existing"),
        at: at_timestamp(matches),
        streams: stream_count(matches),
    })
}

// Returns copies of the argument's texts, in order, none if the argument is missing.
fn argument_texts(
    alloc: Global,
    matches: &ArgMatches<'_>,
    name: &str,
) -> Result<Vec<String>, AllocError>
    ensures { IfOk result (λ texts. map string_bytes texts.items ≡ texts_of_argument (found_of matches.now) name.now) }
{
    let mut texts = Vec::new(alloc);
    for text in matches.get_strs(name).unwrap_or(&[]) {
        texts.push(String::from_str(alloc, text)?)?;
    }
    Ok(texts)
}

fn ask_job(alloc: Global, matches: &ArgMatches<'_>) -> Result<Job, UsageFault>
    ensures { IfOk result (IsRequestedJob (codes "ask") (found_of matches.now)) }
{
    Ok(Job::Ask {
        db: argument_text(alloc, matches, "db")?,
        json: matches.get_flag("json"),
        heads: matches.get_flag("heads"),
        view: argument_text(alloc, matches, "view")?,
        arguments: argument_texts(alloc, matches, "arguments")?,
    })
}

fn explain_job(alloc: Global, matches: &ArgMatches<'_>) -> Result<Job, UsageFault>
    ensures { IfOk result (IsRequestedJob (codes "explain") (found_of matches.now)) }
{
    Ok(Job::Explain {
        db: argument_text(alloc, matches, "db")?,
        words: argument_texts(alloc, matches, "words")?,
    })
}

// Any name but those of the other six subcommands is a batch; the parser accepts no other name.
fn subcommand_job(alloc: Global, name: &str, matches: &ArgMatches<'_>) -> Result<Job, UsageFault>
    ensures { IfOk result (IsRequestedJob name.now (found_of matches.now)) }
{
    if name == "statement" {
        return statement_job(alloc, matches);
    }
    if name == "statements" {
        return statements_job(alloc, matches);
    }
    if name == "serve" {
        return serve_job(alloc, matches);
    }
    if name == "ask" {
        return ask_job(alloc, matches);
    }
    if name == "explain" {
        return explain_job(alloc, matches);
    }
    if name == "audit" {
        let db = argument_text(alloc, matches, "db")?;
        return Ok(Job::Audit { db });
    }
    Ok(Job::Batch {
        db: db_path(alloc, matches)?,
        existing: matches.get_flag("existing"),
        at: at_timestamp(matches),
    })
}

// The parser requires a subcommand; without it the fault has an empty text.
fn job_of_matches(alloc: Global, matches: &ArgMatches<'_>) -> Result<Job, UsageFault> {
    match matches.subcommand() {
        Some((name, given)) => subcommand_job(alloc, name, given),
        None => Err(UsageFault::Words(String::new(alloc))),
    }
}

// Returns `Memory` also if memory runs out for the text of the error.
fn usage_fault_of(alloc: Global, error: &Error) -> UsageFault {
    let kind = error.kind();
    if kind == ErrorKind::OutOfMemory {
        return UsageFault::Memory;
    }
    let Ok(text) = error.to_string(alloc) else {
        return UsageFault::Memory;
    };
    if kind == ErrorKind::DisplayHelp || kind == ErrorKind::DisplayVersion {
        UsageFault::Help(text)
    } else {
        UsageFault::Words(text)
    }
}

/// Returns `Words` with the error text, or `Memory` if memory runs out.
pub fn non_utf8_fault(alloc: Global) -> UsageFault {
    match String::from_str(alloc, "error: a word that is no UTF-8\n") {
        Ok(text) => UsageFault::Words(text),
        Err(_) => UsageFault::Memory,
    }
}

/// Parses the command-line arguments, the program's own name first, and returns the job that they
/// request. Fails with `Help` and its text if help or the version was requested, with `Day` if a
/// day of a statement is malformed, with `Words` and the error text, which may be empty, if the
/// arguments are wrong, or with `Memory`.
pub fn read_words(words: Vec<String>) -> Result<Job, UsageFault> {
    let alloc = *words.allocator();
    let command = whole_command(alloc)?;
    match command.try_get_matches_from(words.as_slice()) {
        Ok(matches) => job_of_matches(alloc, &matches),
        Err(error) => Err(usage_fault_of(alloc, &error)),
    }
}
