//! Texts of queries, with each fault, and what they mean.

use cal_ql::{
    Agg, Cond, Format, Item, KernelName, Let, Op, OrderKey, Query, QueryEnd, QueryKind, Test,
    meaning_law, parse_query, writing_law,
};
use cal_value::{Seq, Text, TryCopy};
use std::alloc::{AllocError, Global};
use std::process::Abort;

/// A text that means no query, with the place and the kind of its first fault.
type Fault = (&'static str, u64, QueryKind);

const TOKEN_FAULTS: [Fault; 16] = [
    ("%", 0, QueryKind::BadToken),
    ("select %", 7, QueryKind::BadToken),
    ("select a %", 9, QueryKind::BadToken),
    ("select a as %", 12, QueryKind::BadToken),
    ("select count(%", 13, QueryKind::BadToken),
    ("let a %", 6, QueryKind::BadToken),
    ("where a=%", 8, QueryKind::BadToken),
    ("group %", 6, QueryKind::BadToken),
    ("order by a \r", 11, QueryKind::BadToken),
    ("format \\", 7, QueryKind::BadToken),
    ("select é %", 10, QueryKind::BadToken),
    ("\"", 0, QueryKind::OpenQuote),
    ("select \"a", 7, QueryKind::OpenQuote),
    ("where a=\"b\\\"", 8, QueryKind::OpenQuote),
    ("let t=\"sum\\", 6, QueryKind::OpenQuote),
    ("a \"", 0, QueryKind::ExpectedClause),
];

const CLAUSE_FAULTS: [Fault; 20] = [
    ("a", 0, QueryKind::ExpectedClause),
    (",", 0, QueryKind::ExpectedClause),
    ("by a", 0, QueryKind::ExpectedClause),
    ("\"select\" a", 0, QueryKind::ExpectedClause),
    ("select a b", 9, QueryKind::ExpectedClause),
    ("select a as b as c", 14, QueryKind::ExpectedClause),
    ("select *, a", 8, QueryKind::ExpectedClause),
    ("select * a", 9, QueryKind::ExpectedClause),
    ("select count() not", 15, QueryKind::ExpectedClause),
    ("select a)", 8, QueryKind::ExpectedClause),
    ("aggregate count() (", 18, QueryKind::ExpectedClause),
    ("where a b", 8, QueryKind::ExpectedClause),
    ("where a=b=c", 9, QueryKind::ExpectedClause),
    ("order by a asc desc", 15, QueryKind::ExpectedClause),
    ("format json json", 12, QueryKind::ExpectedClause),
    ("let a=first(b) b", 15, QueryKind::ExpectedClause),
    ("select a select b", 9, QueryKind::DuplicateClause),
    ("group by a group b", 11, QueryKind::DuplicateClause),
    (
        "Format tree ORDER BY a format",
        23,
        QueryKind::DuplicateClause,
    ),
    ("let a=first(b) where c LET", 23, QueryKind::DuplicateClause),
];

const NAME_FAULTS: [Fault; 28] = [
    ("select", 6, QueryKind::ExpectedName),
    ("select ,", 7, QueryKind::ExpectedName),
    ("select a,", 9, QueryKind::ExpectedName),
    ("select a,*", 9, QueryKind::ExpectedName),
    ("select as", 7, QueryKind::ExpectedName),
    ("select where", 7, QueryKind::ExpectedName),
    ("select a as", 11, QueryKind::ExpectedName),
    ("select a as as", 12, QueryKind::ExpectedName),
    ("select count( where x", 14, QueryKind::ExpectedName),
    ("select sum(a,)", 13, QueryKind::ExpectedName),
    ("select (a)", 7, QueryKind::ExpectedName),
    ("aggregate", 9, QueryKind::ExpectedName),
    ("aggregate select", 10, QueryKind::ExpectedName),
    ("aggregate count() as", 20, QueryKind::ExpectedName),
    ("let", 3, QueryKind::ExpectedName),
    ("let =", 4, QueryKind::ExpectedName),
    ("let a=", 6, QueryKind::ExpectedName),
    ("let a=sum()", 10, QueryKind::ExpectedName),
    ("let a=truncate(", 15, QueryKind::ExpectedName),
    ("let a=ratio(b,c,1,)", 18, QueryKind::ExpectedName),
    ("where", 5, QueryKind::ExpectedName),
    ("where (a)", 6, QueryKind::ExpectedName),
    ("where not not a", 10, QueryKind::ExpectedName),
    ("where not (", 11, QueryKind::ExpectedName),
    ("where a<=", 9, QueryKind::ExpectedName),
    ("where a= =b", 9, QueryKind::ExpectedName),
    ("group by", 8, QueryKind::ExpectedName),
    ("order by asc", 9, QueryKind::ExpectedName),
];

const SIGN_FAULTS: [Fault; 14] = [
    ("let a", 5, QueryKind::ExpectedSign),
    ("let a b", 6, QueryKind::ExpectedSign),
    ("let a<=b", 5, QueryKind::ExpectedSign),
    ("let a=sum", 9, QueryKind::ExpectedSign),
    ("let a=sum b", 10, QueryKind::ExpectedSign),
    ("let a=sum(b", 11, QueryKind::ExpectedSign),
    ("let a=sum(b c", 12, QueryKind::ExpectedSign),
    ("let a=first(b where c", 14, QueryKind::ExpectedSign),
    ("aggregate sum", 13, QueryKind::ExpectedSign),
    ("aggregate count a", 16, QueryKind::ExpectedSign),
    ("select sum(a", 12, QueryKind::ExpectedSign),
    ("select sum(a b)", 13, QueryKind::ExpectedSign),
    ("where not (a", 12, QueryKind::ExpectedSign),
    ("where not (a=b,c)", 14, QueryKind::ExpectedSign),
];

const CALL_FAULTS: [Fault; 30] = [
    ("aggregate total", 10, QueryKind::UnknownKernel),
    ("aggregate SUM(a)", 10, QueryKind::UnknownKernel),
    ("aggregate a,b", 10, QueryKind::UnknownKernel),
    ("aggregate count(),b(c)", 18, QueryKind::UnknownKernel),
    ("select b(", 7, QueryKind::UnknownKernel),
    ("select a,\"b\"(c)", 9, QueryKind::UnknownKernel),
    ("let a=b", 6, QueryKind::UnknownOp),
    ("let a=Sum(b)", 6, QueryKind::UnknownOp),
    ("let a=count(b)", 6, QueryKind::UnknownOp),
    ("let a=first(b),c=d", 17, QueryKind::UnknownOp),
    ("select sum()", 7, QueryKind::BadArity),
    ("select count(a)", 7, QueryKind::BadArity),
    ("aggregate avg(a,b) as c", 10, QueryKind::BadArity),
    ("let a=truncate(b,1,c)", 6, QueryKind::BadArity),
    ("let a=scale(b)", 6, QueryKind::BadArity),
    ("let a=ratio(b)", 6, QueryKind::BadArity),
    ("let a=ratio(b,c,1,d)", 6, QueryKind::BadArity),
    (
        "let t=sum(a,b,c,d,e,f,g,h,i,j,k,l,m,n,o,p,q)",
        6,
        QueryKind::BadArity,
    ),
    ("let a=truncate(b,0)", 17, QueryKind::BadNumber),
    ("let a=truncate(b,-1)", 17, QueryKind::BadNumber),
    ("let a=truncate(b,c)", 17, QueryKind::BadNumber),
    ("let a=truncate(b,\"1\")", 17, QueryKind::BadNumber),
    ("let a=truncate(b,", 17, QueryKind::BadNumber),
    ("let a=truncate(b,)", 17, QueryKind::BadNumber),
    ("let a=scale(b,2147483648)", 14, QueryKind::BadNumber),
    ("let a=scale(b,--1)", 14, QueryKind::BadNumber),
    ("let a=scale(b,-)", 14, QueryKind::BadNumber),
    ("let a=ratio(b,c,1.5)", 16, QueryKind::BadNumber),
    ("let a=ratio(b,c,as)", 16, QueryKind::BadNumber),
    ("let a=ratio(b,c,%)", 16, QueryKind::BadToken),
];

const FORMAT_FAULTS: [Fault; 9] = [
    ("format xml", 7, QueryKind::UnknownFormat),
    ("format JSON", 7, QueryKind::UnknownFormat),
    ("format \"\"", 7, QueryKind::UnknownFormat),
    ("format", 6, QueryKind::ExpectedName),
    ("format as", 7, QueryKind::ExpectedName),
    ("group path", 6, QueryKind::ExpectedBy),
    ("group", 5, QueryKind::ExpectedBy),
    ("order a", 6, QueryKind::ExpectedBy),
    ("order \"by\" a", 6, QueryKind::ExpectedBy),
];

/// Texts, and the query that each means.
const QUERIES: [(&str, &str); 31] = [
    ("", "expand"),
    (" \t\n", "expand"),
    ("select *", "expand"),
    ("SELECT a", "[a:a] expand"),
    ("select a,b as c", "[a:a][b:c] expand"),
    ("select \"sum\" as \"x y\"", "[sum:x y] expand"),
    ("select count", "[count:count] expand"),
    (
        "select count()",
        "[count:count] {count of  as count} expand",
    ),
    ("select \"sum\"(a)as b", "[b:b] {sum of a as b} expand"),
    ("select \"a\\\"b\\\\c\\n\"", "[a\"b\\cn:a\"b\\cn] expand"),
    (
        "select é,a.b-c:d#e/f@g_1",
        "[é:é][a.b-c:d#e/f@g_1:a.b-c:d#e/f@g_1] expand",
    ),
    (
        "aggregate min(a),max(a) select avg(a),inclusive_sum(a)",
        "[avg#a:avg#a][inclusive#a:inclusive#a] {avg of a as avg#a}{inclusive of a as inclusive#a}{min of a as min#a}{max of a as max#a} expand",
    ),
    (
        "select sum(a) as x,count() as x aggregate percent_total(b)",
        "[x:x][x:x] {sum of a as x}{percent of b as percent_total#b} expand",
    ),
    (
        "aggregate sum(a),sum(a) as b,sum(a)",
        "{sum of a as sum#a}{sum of a as b} expand",
    ),
    ("where a", "(a) expand"),
    ("where not a", "(not a) expand"),
    ("where not(a=b)", "(not a=b) expand"),
    (
        "where a<b,c>d,e<=f,g>=\"h\"",
        "(a<b)(c>d)(e<=f)(g>=h) expand",
    ),
    ("where not a>=b", "(not a>=b) expand"),
    ("where a=\"not\"", "(a=not) expand"),
    ("group by path,a", "by[path][a] expand"),
    ("order by a,b desc,c Asc", "order[a][b down][c] expand"),
    ("format table", "table"),
    ("Format \"tree\"", "tree"),
    ("format json", "json"),
    ("let a=truncate(b)", "a=truncate(b)1; expand"),
    ("let a=truncate(b,007)", "a=truncate(b)7; expand"),
    (
        "let a=scale(b,-2147483647),c=ratio(d,e)",
        "a=scale(b)-2147483647;c=ratio(d,e)1; expand",
    ),
    (
        "let a=\"ratio\"(b,c,-0) format expand",
        "a=ratio(b,c)0; expand",
    ),
    (
        "let a=first(b,c),d=sum(e)",
        "a=first(b,c)1;d=sum(e)1; expand",
    ),
    (
        "let t=sum(a,b,c,d,e,f,g,h,i,j,k,l,m,n,o,p)",
        "t=sum(a,b,c,d,e,f,g,h,i,j,k,l,m,n,o,p)1; expand",
    ),
];

/// Canonical texts, written by hand, with the queries that they are the texts of.
const CANONICAL: [(&str, &str); 5] = [
    ("format expand ", "expand"),
    (
        "let \"a\" = ratio ( \"b\" , \"c\" , -7 ) , \"d\" = sum ( \"let\" ) format json ",
        "a=ratio(b,c)-7;d=sum(let)1; json",
    ),
    (
        "select \"a\" as \"b\" , \"count\" as \"count\" aggregate count ( ) as \"count\" format tree ",
        "[a:b][count:count] {count of  as count} tree",
    ),
    (
        "where not \"a\\\"\" <= \"\\\\\" , \"\" group by \"path\" format table ",
        "(not a\"<=\\)() by[path] table",
    ),
    (
        "order by \"a\" asc , \"b\" desc format expand ",
        "order[a][b down] expand",
    ),
];

fn args_text(alloc: Global, names: &[Text]) -> Result<String, AllocError> {
    let mut args = String::new(alloc);
    for name in names {
        args.push_str(if args.is_empty() { "" } else { "," })?;
        args.push_str(name.as_str())?;
    }
    Ok(args)
}

fn op_text(op: Op) -> &'static str {
    match op {
        Op::Truncate => "truncate",
        Op::Scale => "scale",
        Op::Ratio => "ratio",
        Op::First => "first",
        Op::Sum => "sum",
    }
}

fn put_let(alloc: Global, definition: &Let, out: &mut String) -> Result<(), AllocError> {
    let args = args_text(alloc, definition.args.as_slice())?;
    let name = definition.name.as_str();
    let op = op_text(definition.op);
    let text = format!(in alloc; "{name}={op}({}){};", args.as_str(), definition.n)?;
    out.push_str(text.as_str())
}

fn put_lets(alloc: Global, query: &Query, out: &mut String) -> Result<(), AllocError> {
    for definition in query.lets.as_slice() {
        put_let(alloc, definition, out)?;
    }
    out.push_str(if query.lets.is_empty() { "" } else { " " })
}

fn put_item(alloc: Global, item: &Item, out: &mut String) -> Result<(), AllocError> {
    let text = format!(in alloc; "[{}:{}]", item.name.as_str(), item.header.as_str())?;
    out.push_str(text.as_str())
}

fn put_items(alloc: Global, items: &[Item], out: &mut String) -> Result<(), AllocError> {
    for item in items {
        put_item(alloc, item, out)?;
    }
    out.push_str(" ")
}

fn put_select(alloc: Global, query: &Query, out: &mut String) -> Result<(), AllocError> {
    match &query.select {
        Some(items) => put_items(alloc, items.as_slice(), out),
        None => Ok(()),
    }
}

fn kernel_text(kernel: KernelName) -> &'static str {
    match kernel {
        KernelName::Count => "count",
        KernelName::Sum => "sum",
        KernelName::Min => "min",
        KernelName::Max => "max",
        KernelName::Avg => "avg",
        KernelName::Inclusive => "inclusive",
        KernelName::Percent => "percent",
    }
}

fn put_agg(alloc: Global, agg: &Agg, out: &mut String) -> Result<(), AllocError> {
    let kernel = kernel_text(agg.kernel);
    let (attr, name) = (agg.attr.as_str(), agg.name.as_str());
    let text = format!(in alloc; "{{{kernel} of {attr} as {name}}}")?;
    out.push_str(text.as_str())
}

fn put_aggs(alloc: Global, query: &Query, out: &mut String) -> Result<(), AllocError> {
    for agg in query.aggs.as_slice() {
        put_agg(alloc, agg, out)?;
    }
    out.push_str(if query.aggs.is_empty() { "" } else { " " })
}

/// The sign of a test, and its value.
fn test_text(test: &Test) -> (&'static str, &str) {
    match test {
        Test::Has => ("", ""),
        Test::Eq(value) => ("=", value.as_str()),
        Test::Lt(value) => ("<", value.as_str()),
        Test::Gt(value) => (">", value.as_str()),
        Test::Le(value) => ("<=", value.as_str()),
        Test::Ge(value) => (">=", value.as_str()),
    }
}

fn put_cond(alloc: Global, cond: &Cond, out: &mut String) -> Result<(), AllocError> {
    let not = if cond.not { "not " } else { "" };
    let name = cond.name.as_str();
    let (sign, value) = test_text(&cond.test);
    let text = format!(in alloc; "({not}{name}{sign}{value})")?;
    out.push_str(text.as_str())
}

fn put_conds(alloc: Global, query: &Query, out: &mut String) -> Result<(), AllocError> {
    for cond in query.conds.as_slice() {
        put_cond(alloc, cond, out)?;
    }
    out.push_str(if query.conds.is_empty() { "" } else { " " })
}

fn put_name(name: &str, out: &mut String) -> Result<(), AllocError> {
    out.push_str("[")?;
    out.push_str(name)?;
    out.push_str("]")
}

fn put_names(names: &Seq<Text>, out: &mut String) -> Result<(), AllocError> {
    out.push_str("by")?;
    for name in names.as_slice() {
        put_name(name.as_str(), out)?;
    }
    out.push_str(" ")
}

fn put_group(query: &Query, out: &mut String) -> Result<(), AllocError> {
    match &query.group {
        Some(names) => put_names(names, out),
        None => Ok(()),
    }
}

fn put_key(alloc: Global, key: &OrderKey, out: &mut String) -> Result<(), AllocError> {
    let down = if key.down { " down" } else { "" };
    let text = format!(in alloc; "[{}{down}]", key.name.as_str())?;
    out.push_str(text.as_str())
}

fn put_order(alloc: Global, query: &Query, out: &mut String) -> Result<(), AllocError> {
    out.push_str(if query.order.is_empty() { "" } else { "order" })?;
    for key in query.order.as_slice() {
        put_key(alloc, key, out)?;
    }
    out.push_str(if query.order.is_empty() { "" } else { " " })
}

fn format_text(format: Format) -> &'static str {
    match format {
        Format::Table => "table",
        Format::Tree => "tree",
        Format::Json => "json",
        Format::Expand => "expand",
    }
}

/// A query as the tables write it.
fn put_query(alloc: Global, query: &Query, out: &mut String) -> Result<(), AllocError> {
    put_lets(alloc, query, out)?;
    put_select(alloc, query, out)?;
    put_aggs(alloc, query, out)?;
    put_conds(alloc, query, out)?;
    put_group(query, out)?;
    put_order(alloc, query, out)?;
    out.push_str(format_text(query.format))
}

fn is_shown(alloc: Global, query: &Query, wanted: &str) -> Result<bool, AllocError> {
    let mut out = String::new(alloc);
    put_query(alloc, query, &mut out)?;
    Ok(out.as_str() == wanted)
}

fn means(alloc: Global, text: &str, wanted: &str) -> Result<bool, AllocError> {
    match parse_query(alloc, text) {
        Ok(query) => is_shown(alloc, &query, wanted),
        Err(_) => Ok(false),
    }
}

fn wrong_query(
    alloc: Global,
    rows: &[(&'static str, &str)],
) -> Result<Option<&'static str>, AllocError> {
    for row in 0..rows.len() {
        if !means(alloc, rows[row].0, rows[row].1)? {
            return Ok(Some(rows[row].0));
        }
    }
    Ok(None)
}

fn falls(alloc: Global, text: &str, place: u64, kind: QueryKind) -> bool {
    match parse_query(alloc, text) {
        Ok(_) => false,
        Err(end) => end == QueryEnd::BadQuery { place, kind },
    }
}

fn wrong_fault(alloc: Global, rows: &[Fault]) -> Option<&'static str> {
    for row in 0..rows.len() {
        let (text, place, kind) = rows[row];
        if !falls(alloc, text, place, kind) {
            return Some(text);
        }
    }
    None
}

/// No text of a table is read in another way, and the memory was enough.
fn check(rt: &impl Abort, wrong: Result<Option<&'static str>, AllocError>) {
    assert_eq!(rt; wrong, Ok(None), "the first wrong text");
}

#[test]
fn bad_tokens_and_open_quotes(rt: HostRuntime) {
    check(&rt, Ok(wrong_fault(rt.alloc(), &TOKEN_FAULTS)));
}

#[test]
fn clauses_that_are_missing_or_stand_twice(rt: HostRuntime) {
    check(&rt, Ok(wrong_fault(rt.alloc(), &CLAUSE_FAULTS)));
}

#[test]
fn names_that_are_missing(rt: HostRuntime) {
    check(&rt, Ok(wrong_fault(rt.alloc(), &NAME_FAULTS)));
}

#[test]
fn signs_that_are_missing(rt: HostRuntime) {
    check(&rt, Ok(wrong_fault(rt.alloc(), &SIGN_FAULTS)));
}

#[test]
fn kernels_operators_arguments_and_numbers(rt: HostRuntime) {
    check(&rt, Ok(wrong_fault(rt.alloc(), &CALL_FAULTS)));
}

#[test]
fn formats_and_by(rt: HostRuntime) {
    check(&rt, Ok(wrong_fault(rt.alloc(), &FORMAT_FAULTS)));
}

#[test]
fn texts_mean_queries(rt: HostRuntime) {
    check(&rt, wrong_query(rt.alloc(), &QUERIES));
}

#[test]
fn canonical_texts_mean_their_queries(rt: HostRuntime) {
    writing_law();
    check(&rt, wrong_query(rt.alloc(), &CANONICAL));
}

/// Another kernel, with a name that none before has.
fn put_sum(alloc: Global, number: u32, text: &mut String) -> Result<(), AllocError> {
    let item = format!(in alloc; ",sum(a{number})")?;
    text.push_str(item.as_str())
}

fn put_sums(alloc: Global, count: u32, text: &mut String) -> Result<(), AllocError> {
    for number in 0..count {
        put_sum(alloc, number, text)?;
    }
    Ok(())
}

fn has_kernels(alloc: Global, text: &str, count: usize) -> bool {
    match parse_query(alloc, text) {
        Ok(query) => query.aggs.len() == count,
        Err(_) => false,
    }
}

fn has_many_kernels(alloc: Global) -> Result<bool, AllocError> {
    let mut text = String::from_str(alloc, "aggregate sum(a)")?;
    put_sums(alloc, 40_000, &mut text)?;
    Ok(has_kernels(alloc, text.as_str(), 40_001))
}

/// A text of many names, in which no result name comes twice.
#[test]
fn many_names_take_little_time(rt: HostRuntime) {
    assert!(rt; has_many_kernels(rt.alloc()) == Ok(true));
}

fn is_copied(alloc: Global, query: &Query) -> bool {
    match query.copy(alloc) {
        Ok(copy) => copy == *query,
        Err(_) => false,
    }
}

fn copies(alloc: Global, text: &str) -> bool {
    match parse_query(alloc, text) {
        Ok(query) => is_copied(alloc, &query),
        Err(_) => false,
    }
}

#[test]
fn a_copy_is_the_query(rt: HostRuntime) {
    let text = "let a=scale(b,2) select a,sum(b) where not a<b,c group by d order by e desc";
    assert!(rt; copies(rt.alloc(), text));
    meaning_law();
}
