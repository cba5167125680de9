//! What files of sizes say.

use crate::texts::file;
use duct_units::Name;
use size_catalogue::{Sizes, read_sizes};
use std::alloc::Global;
use std::test::Fail;

/// The header, a whole file, and a row behind its size.
const WORDS: [(&str, &str); 3] = [
    (r"\H", "list,size,area,height,metre,join,step\n"),
    (
        r"\C",
        "list,size,area,height,metre,join,step
z,z1,20000,160,2000,500,300
a,a1,1001,2,3,4,5
z,z2,50000,250,3000,800,400
a,a2,1000,1,0,0,0
",
    ),
    (r"\S", ",1000,1,0,0,0\n"),
];

/// A case a line: the answer, what is asked, and the bytes of the file. Where nothing is asked, the answer is how many
/// sizes there are; of a list it is its number and those of its sizes, of a size its number, list, area, height and
/// prices. A line without bars says what the cases below it show.
const CASES: &str = r#"
The first row is the header.
refused at Row 1: Header||
refused at Row 1: Header||\n\r\n\r
refused at Row 1: Header||\B
0 sizes||list,size,area,height,metre,join,step
0 sizes||list,size,area,height,metre,join,step\n
0 sizes||list,size,area,height,metre,join,step\r\n
0 sizes||\Blist,size,area,height,metre,join,step\n
refused at Row 1: Header||\B\Blist,size,area,height,metre,join,step\n
0 sizes||\n\r\nlist,size,area,height,metre,join,step\n\n
0 sizes||"list","size",area,height,metre,join,step\n
refused at Row 1: Header||list,size,area,height,metre,join\n
refused at Row 1: Header||list,size,area,height,metre,join\nround,R1,20000,160,2000,500,300\nround,R2,50000,250,3000,800,400\n
refused at Row 1: Header||list,size,area,height,metre,join,step,\n
refused at Row 1: Header||List,size,area,height,metre,join,step\n
refused at Row 1: Header||list, size,area,height,metre,join,step\n
refused at Row 1: Header||list;size;area;height;metre;join;step\n
refused at Row 1: Header||list,size,area,height,metre,join,step\0\n
refused at Row 1: Header||round,R1,20000,160,2000,500,300\n

How rows end.
1 sizes||\Hround,R1,20000,160,2000,500,300\n
1 sizes||\Hround,R1,20000,160,2000,500,300
1 sizes||\Hround,R1,20000,160,2000,500,300\r\n
2 sizes||\Hr,R1,1000,1,0,0,0\rr,R2,1000,1,0,0,0\r
2 sizes||\H\n\nr,R1,1000,1,0,0,0\n\r\n\nr,R2,1000,1,0,0,0\n\n
2 sizes||\Hround,R1,20000,160,2000,500,300\nround,R2,50000,250,3000,800,400\n

A quote is special at the start of a field alone.
1 sizes||\Hround,"R1",20000,160,2000,500,300\n
2 sizes||\Hround,"R1",20000,160,2000,500,300\nround,R2,50000,250,3000,800,400\n
refused at Row 2: Field||\Hround,R"1,20000,160,2000,500,300\n
refused at Row 2: Columns||\H"round,R1",20000,160,2000,500,300\n
refused at Row 2: Columns||\Hround,"R1,20000,160,2000,500,300\n
refused at Row 2: Field||\Hround,"R\n1",20000,160,2000,500,300\n

Seven fields.
refused at Row 2: Columns||\Hround,R1,20000,160,2000,500\n
refused at Row 2: Columns||\Hround,R1,20000,160,2000,500,300,\n
refused at Row 2: Columns||\Hx
refused at Row 2: Columns||\H \n
refused at Row 2: Columns||\Hround,,1\n
refused at Row 2: Field||\H,,,,,,\n

Names.
refused at Row 2: Field||\H,R1,1000,1,0,0,0\n
refused at Row 2: Field||\Hround,,1000,1,0,0,0\n
refused at Row 2: Field||\Hro und,R1,1000,1,0,0,0\n
refused at Row 2: Field||\Hround,R1\0,1000,1,0,0,0\n
refused at Row 2: Field||\Hround,R\F,1000,1,0,0,0\n
1 sizes||\Hround,0123456789abcdef0123456789abcdef,1000,1,0,0,0\n
refused at Row 2: Field||\Hround,0123456789abcdef0123456789abcdef0,1000,1,0,0,0\n

Numbers within their bounds, in their one spelling.
1 sizes||\Hround,R1,1000,1,0,0,0\n
refused at Row 2: Field||\Hround,R1,999,1,0,0,0\n
1 sizes||\Hround,R1,100000000,1000000,100000000,10000000000,10000000000\n
refused at Row 2: Field||\Hround,R1,100000001,1,0,0,0\n
refused at Row 2: Field||\Hround,R1,1000,0,0,0,0\n
refused at Row 2: Field||\Hround,R1,1000,1000001,0,0,0\n
refused at Row 2: Field||\Hround,R1,1000,1,100000001,0,0\n
refused at Row 2: Field||\Hround,R1,1000,1,0,10000000001,0\n
refused at Row 2: Field||\Hround,R1,1000,1,0,0,10000000001\n
refused at Row 2: Field||\Hround,R1,1000,1,0,0,-1\n
refused at Row 2: Field||\Hround,R1,1000,1,0,0,+1\n
refused at Row 2: Field||\Hround,R1,1000,1,0,0,01\n
refused at Row 2: Field||\Hround,R1,1000,1,0,0,1.0\n
refused at Row 2: Field||\Hround,R1,1000,1,0,0, 1\n
refused at Row 2: Field||\Hround,R1,1000,1,0,0,\n
refused at Row 2: Field||\Hround,R1,1000,1,0,0,99999999999999999999999\n

The first refusal of the first row that has one.
refused at Row 2: Columns||\Hround,R1,1\n
refused at Row 3: Twice||\Hr,R1,1000,1,0,0,0\nr,R1,1000,1,0,0,0\n
refused at Row 3: Twice||\Hr,R1,1000,1,0,0,0\nf,R1,1000,1,0,0,0\n
refused at Row 3: Field||\Hr,R1,1000,1,0,0,0\nr,R1,1,1,0,0,0\n
refused at Row 2: Field||\Hr,R1,1,1,0,0,0\nr,R1\n

At most 16 lists, and at most 24 sizes of a list; a name that stands before is refused as such, with or without room.
24 sizes||\H`24 of a,S#\S`
refused at Row 26: TooMany||\H`25 of a,S#\S`
refused at Row 26: TooMany||\H`48 of a,S#\S`
16 sizes||\H`16 of l#,S#\S`
refused at Row 18: TooMany||\H`17 of l#,S#\S`
384 sizes||\H`16 of ~24 of l#,S#.@\S~`
refused at Row 386: TooMany||\H`16 of ~24 of l#,S#.@\S~`l17,S\S
refused at Row 26: Twice||\H`24 of a,S#\S`a,S1\S
refused at Row 2: Columns||\H`100000 of x,`

Lists are numbered by first appearance, whatever their names, and a list's sizes are its rows in order.
4 sizes||\C
list 0: 0 2|list z|\C
list 1: 1 3|list a|\C
none|list z1|\C
size 0: 0 20000 160 2000 500 300|size z1|\C
size 1: 1 1001 2 3 4 5|size a1|\C
size 2: 0 50000 250 3000 800 400|size z2|\C
size 3: 1 1000 1 0 0 0|size a2|\C
none|size z|\C
"#;

#[test]
fn a_file_is_its_sizes_or_the_first_refusal(rt: HostRuntime) -> Result<(), Fail> {
    for line in CASES.lines() {
        if let Some((wanted, case)) = line.split_once('|') {
            let found = outcome(rt.alloc(), case)?;
            assert_eq!(rt; found.as_str(), wanted, "at {line}");
        }
    }
    Ok(())
}

/// What a file says of what is asked.
fn outcome(alloc: Global, case: &str) -> Result<String, Fail> {
    let (asked, text) = case.split_once('|').ok_or("no file")?;
    let bytes = file(alloc, text, &WORDS)?;
    match read_sizes(alloc, &bytes) {
        Ok(sizes) => told(alloc, &sizes, asked),
        Err(error) => Ok(format!(in alloc; "{error}")?),
    }
}

fn told(alloc: Global, sizes: &Sizes, asked: &str) -> Result<String, Fail> {
    let Some((kind, name)) = asked.split_once(' ') else {
        return Ok(format!(in alloc; "{} sizes", sizes.len())?);
    };
    let name = Name::new(name.as_bytes()).ok_or("no name")?;
    if kind == "list" {
        list_told(alloc, sizes, &name)
    } else {
        size_told(alloc, sizes, &name)
    }
}

fn list_told(alloc: Global, sizes: &Sizes, name: &Name) -> Result<String, Fail> {
    let Some(list) = sizes.list(name) else {
        return Ok(String::from_str(alloc, "none")?);
    };
    let mut text = format!(in alloc; "list {list}:")?;
    for k in 0..sizes.count(list) {
        write!(text, " {}", sizes.number(list, k))?;
    }
    Ok(text)
}

fn size_told(alloc: Global, sizes: &Sizes, name: &Name) -> Result<String, Fail> {
    let Some(number) = sizes.named(name) else {
        return Ok(String::from_str(alloc, "none")?);
    };
    let size = sizes.size(number);
    let (list, area, height) = (size.list, size.area, size.height);
    let (metre, join, step) = (size.metre, size.join, size.step);
    Ok(format!(in alloc; "size {number}: {list} {area} {height} {metre} {join} {step}")?)
}
