//! Loads of small files, each shown as one line: its columns, then its rows, then its flags.
use crate::load;
use cell_errors::{CellError, EvalFault};
use dataset_types::{Choice, Picks, Repair, Row, Site, Table, Types};
use std::alloc::Global;
use std::process::Abort;
use std::test::Fail;
use value_types::{ColumnType, NoMemory, Value, Words, id_text, literal_text};

fn push_row(alloc: Global, out: &mut Words, row: &Row) -> Result<(), NoMemory> {
    out.push_text(alloc, if row.sure { "; " } else { "; ?" })?;
    id_text(alloc, &row.id, out)?;
    for marked in row.values.as_slice() {
        out.push_text(alloc, if marked.marked { " ~" } else { " " })?;
        literal_text(alloc, &marked.value, out)?;
    }
    Ok(())
}

fn push_table(alloc: Global, out: &mut Words, table: &Table) -> Result<(), NoMemory> {
    for column in table.columns().as_slice() {
        out.push_text(alloc, column.name.as_text())?;
        out.push_text(
            alloc,
            match column.kind {
                ColumnType::Bool => " bool ",
                ColumnType::Int => " int ",
                ColumnType::Fixed => " fixed ",
                ColumnType::Text => " text ",
            },
        )?;
    }
    for row in table.rows().as_slice() {
        push_row(alloc, out, row)?;
    }
    if table.is_open() {
        out.push_text(alloc, "; open")?;
    }
    if table.is_loose() {
        out.push_text(alloc, "; loose")?;
    }
    Ok(())
}

/// The table of a load, or the error, as a line.
fn line_of(alloc: Global, answer: &Result<Table, EvalFault>) -> Result<Words, NoMemory> {
    let mut out = Words::new(alloc)?;
    match answer {
        Ok(table) => push_table(alloc, &mut out, table)?,
        Err(EvalFault::Error(CellError::NoHeader)) => out.push_text(alloc, "NoHeader")?,
        Err(EvalFault::Error(CellError::TooLarge)) => out.push_text(alloc, "TooLarge")?,
        Err(_) => out.push_text(alloc, "another fault")?,
    }
    Ok(out)
}

fn types_of(alloc: Global, kinds: &[Option<ColumnType>]) -> Result<Types, NoMemory> {
    let mut types = Types::new(alloc)?;
    for kind in kinds {
        types.push(alloc, *kind)?;
    }
    Ok(types)
}

/// A file that is loaded with these types, this repair and these picks as cell 1 shows this line.
fn gives(
    rt: &impl Abort,
    alloc: Global,
    file: &[u8],
    kinds: &[Option<ColumnType>],
    repair: Repair,
    picks: &Picks,
    line: &str,
) -> Result<(), NoMemory> {
    let types = types_of(alloc, kinds)?;
    let answer = load(alloc, file, &types, repair, picks, 1);
    let shown = line_of(alloc, &answer)?;
    assert_eq!(rt; shown.as_text(), line);
    Ok(())
}

/// The same without types and picks.
fn guesses(rt: &impl Abort, alloc: Global, file: &[u8], line: &str) -> Result<(), NoMemory> {
    gives(
        rt,
        alloc,
        file,
        &[],
        Repair::Null,
        &Picks::new(alloc)?,
        line,
    )
}

const INT: Option<ColumnType> = Some(ColumnType::Int);

const FIXED: Option<ColumnType> = Some(ColumnType::Fixed);

const TRUTH: Option<ColumnType> = Some(ColumnType::Bool);

const TEXT: Option<ColumnType> = Some(ColumnType::Text);

#[test]
fn column_names_are_cleaned_and_made_distinct(rt: HostRuntime) -> Result<(), Fail> {
    let alloc = rt.alloc();
    guesses(
        &rt,
        alloc,
        b"A b,a_b,1x,,\n",
        "a_b text a_b_2 text c_1x text c text c_2 text ",
    )?;
    guesses(
        &rt,
        alloc,
        b"__x--Y__,a,A,a_2,a\n",
        "x_y text a text a_2 text a_2_2 text a_3 text ",
    )?;
    guesses(
        &rt,
        alloc,
        b"abcdefghijklmnopqrstuvw xyz,abcdefghijklmnopqrstuvwxyz,ABCDEFGHIJKLMNOPQRSTUVWX\n",
        "abcdefghijklmnopqrstuvw text abcdefghijklmnopqrstuvwx text abcdefghijklmnopqrstuvwx_2 text ",
    )?;
    guesses(
        &rt,
        alloc,
        b"\xc3\xa4b\xff,123456789012345678901234567,--- \n",
        "b text c_123456789012345678901234 text c text ",
    )?;
    Ok(())
}

#[test]
fn a_type_is_guessed_at_nine_in_ten(rt: HostRuntime) -> Result<(), Fail> {
    let alloc = rt.alloc();
    guesses(
        &rt,
        alloc,
        b"n\n1\n2\n3\n4\n5\n6\n7\n8\n9\nx\n",
        "n int ; #1 1; #2 2; #3 3; #4 4; #5 5; #6 6; #7 7; #8 8; #9 9; #10 ~null",
    )?;
    guesses(
        &rt,
        alloc,
        b"n\n1\n2\n3\n4\n5\n6\n7\n8\nx\n",
        "n text ; #1 \"1\"; #2 \"2\"; #3 \"3\"; #4 \"4\"; #5 \"5\"; #6 \"6\"; #7 \"7\"; #8 \"8\"; #9 \"x\"",
    )?;
    guesses(
        &rt,
        alloc,
        b"n,m\n 1 ,\"  \"\n2.5,\n",
        "n fixed m text ; #1 1.0000 \"  \"; #2 2.5000 \"\"",
    )?;
    guesses(
        &rt,
        alloc,
        b"n\ntrue\n\" \"\nFALSE\n",
        "n bool ; #1 true; #2 null; #3 false",
    )?;
    Ok(())
}

#[test]
fn fields_are_read_as_their_types(rt: HostRuntime) -> Result<(), Fail> {
    let alloc = rt.alloc();
    let none = Picks::new(alloc)?;
    gives(
        &rt,
        alloc,
        b"i,f,b,t\n -9223372036854775808 , +0.0001,tRUE , a \n9223372036854775808,1.00001,yes,\xff\n,,,\n+7,922337203685477.5807,false,\"q\"\"\"\n",
        &[INT, FIXED, TRUTH, TEXT],
        Repair::Null,
        &none,
        "i int f fixed b bool t text ; #1 -9223372036854775808 0.0001 true \" a \"; #2 ~null ~null ~null ~null; #3 null null null \"\"; #4 7 922337203685477.5807 false \"q\\\"\"",
    )?;
    gives(
        &rt,
        alloc,
        b"i,f,b,t\n9223372036854775807,922337203685477.5808, false ,\n-9223372036854775809,-922337203685477.5809,FaLsE ,\n\t1,\"  \",\"\ttrue\",\t\n",
        &[INT, FIXED, TRUTH, TEXT],
        Repair::Null,
        &none,
        "i int f fixed b bool t text ; #1 9223372036854775807 ~null false \"\"; #2 ~null ~null false \"\"; #3 ~null null ~null \"\\t\"",
    )?;
    gives(
        &rt,
        alloc,
        b"i,f,b,t\nx,x,x,\xff\n",
        &[INT, FIXED, TRUTH, TEXT],
        Repair::Zero,
        &none,
        "i int f fixed b bool t text ; #1 ~0 ~0.0000 ~false ~\"\"",
    )?;
    Ok(())
}

#[test]
fn short_records_are_repaired_and_surplus_ones_unsure(rt: HostRuntime) -> Result<(), Fail> {
    let alloc = rt.alloc();
    let none = Picks::new(alloc)?;
    gives(
        &rt,
        alloc,
        b"a,b\n1\n2,3,4\n",
        &[INT, INT],
        Repair::Null,
        &none,
        "a int b int ; #1 1 ~null; ?#2 2 3; open",
    )?;
    let mut picks = Picks::new(alloc)?;
    picks.push(alloc, 1, Site::Record { number: 2 }, Choice::Keep(false))?;
    gives(
        &rt,
        alloc,
        b"a,b\n1\n2,3,4\n",
        &[INT, INT],
        Repair::Null,
        &picks,
        "a int b int ; #1 1 ~null; open",
    )?;
    picks.push(alloc, 1, Site::Record { number: 2 }, Choice::Keep(true))?;
    gives(
        &rt,
        alloc,
        b"a,b\n1\n2,3,4\n",
        &[INT, INT],
        Repair::Null,
        &picks,
        "a int b int ; #1 1 ~null; ?#2 2 3; open",
    )?;
    Ok(())
}

#[test]
fn the_last_pick_counts_where_it_fits(rt: HostRuntime) -> Result<(), Fail> {
    let alloc = rt.alloc();
    let site = Site::Field {
        number: 2,
        column: 2,
    };
    let file = b"id,price\n1,2.50\n2,abc\n";
    let mut picks = Picks::new(alloc)?;
    picks.push(alloc, 1, site, Choice::Value(Value::Int(7)))?;
    picks.push(alloc, 2, site, Choice::Value(Value::Int(8)))?;
    gives(
        &rt,
        alloc,
        file,
        &[INT, FIXED],
        Repair::Null,
        &picks,
        "id int price fixed ; #1 1 2.5000; #2 2 ~7.0000",
    )?;
    let mut text = Words::new(alloc)?;
    text.push_text(alloc, "x")?;
    picks.push(alloc, 1, site, Choice::Value(Value::Text(text)))?;
    gives(
        &rt,
        alloc,
        file,
        &[INT, FIXED],
        Repair::Zero,
        &picks,
        "id int price fixed ; #1 1 2.5000; #2 2 ~0.0000",
    )?;
    Ok(())
}

#[test]
fn all_records_count_for_the_guess(rt: HostRuntime) -> Result<(), Fail> {
    let alloc = rt.alloc();
    let mut picks = Picks::new(alloc)?;
    picks.push(alloc, 1, Site::Record { number: 2 }, Choice::Keep(false))?;
    gives(
        &rt,
        alloc,
        b"n\n1\nx,y\n",
        &[None],
        Repair::Null,
        &picks,
        "n text ; #1 \"1\"; open",
    )?;
    Ok(())
}

#[test]
fn marks_ends_and_quotes_are_those_of_csv(rt: HostRuntime) -> Result<(), Fail> {
    let alloc = rt.alloc();
    guesses(
        &rt,
        alloc,
        b"\xef\xbb\xbfa,b\r\n\"1,5\",2\r\n3,\"4\"",
        "a text b int ; #1 \"1,5\" 2; #2 \"3\" 4",
    )?;
    guesses(&rt, alloc, b"", "NoHeader")?;
    guesses(&rt, alloc, b"\xef\xbb\xbf", "NoHeader")?;
    guesses(&rt, alloc, b"a", "a text ")?;
    guesses(
        &rt,
        alloc,
        b",,,,,,,,,,,,,,,,,,,,,,,,,,,,,,,,\n",
        "TooLarge",
    )?;
    Ok(())
}
