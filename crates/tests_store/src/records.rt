// Records.
use muck_codec::{CodecFault, Property, Stored, put_record, take_record};
use muck_model::{Dbref, Flags, Kind, LINES_MOST, Line, LineList, Row};
use muck_prop::{PropValue, read_path};
use std::alloc::Global;
use std::test::Fail;

fn text(alloc: Global, bytes: &[u8]) -> Option<Line> {
    Line::new(alloc, bytes).ok()
}

fn property(alloc: Global, path: &[u8], number: i32) -> Option<Property> {
    let path = text(alloc, path)?;
    Some(Property {
        path: read_path(alloc, &path).ok()?,
        value: PropValue::Number(number),
    })
}

// A ball with two properties, in this order.
fn ball(alloc: Global, first: &[u8], second: &[u8]) -> Option<Stored> {
    let mut props = Row::new(alloc).ok()?;
    props.push(property(alloc, first, 5)?).ok()?;
    props.push(property(alloc, second, -1)?).ok()?;
    Some(Stored {
        dbref: Dbref(2),
        kind: Kind::Thing,
        flags: Flags(0),
        level: 0,
        owner: Dbref(1),
        place: Dbref(1),
        link: Dbref(-1),
        home: Dbref(0),
        first_content: Dbref(-1),
        first_exit: Dbref(-1),
        next: Dbref(-1),
        name: text(alloc, b"ball")?,
        props,
        lines: LineList::new(alloc).ok()?,
        digest: text(alloc, b"")?,
    })
}

fn spelled(alloc: Global, object: &Stored) -> Option<Vec<u8>> {
    if object.lines.len() > LINES_MOST {
        return None;
    }
    let mut out = Vec::new(alloc);
    put_record(alloc, object, &mut out).ok()?;
    Some(out)
}

// The fields of fixed size, the name and the count, and then the properties.
const SIZE: usize = 4 + 1 + 2 + 1 + 7 * 4 + (2 + 4) + 8 + (2 + 1 + 5) + (2 + 3 + 5) + 2 + 2;

#[test]
fn a_record_is_read_again(rt: HostRuntime) -> Result<(), Fail> {
    let alloc = rt.alloc();
    let ball = ball(alloc, b"a", b"a/b").ok_or("a ball")?;
    let mut bytes = spelled(alloc, &ball).ok_or("its bytes")?;
    assert_eq!(rt; bytes.len(), SIZE);
    bytes.push(77)?;
    match take_record(alloc, 1, &bytes) {
        Ok((again, size)) => {
            assert_eq!(rt; size, SIZE);
            assert_eq!(rt; again.props.len(), 2);
            assert!(rt; again.name.as_slice() == b"ball".as_slice());
        }
        Err(_) => assert!(rt; false),
    }
    Ok(())
}

#[test]
fn each_cut_of_a_record(rt: HostRuntime) -> Result<(), Fail> {
    let alloc = rt.alloc();
    let ball = ball(alloc, b"a", b"a/b").ok_or("a ball")?;
    let bytes = spelled(alloc, &ball).ok_or("its bytes")?;
    for n in 0..bytes.len() {
        let part = bytes.split_at(n).0;
        assert!(rt;
            matches!(take_record(alloc, 1, part), Err(CodecFault::BadRecord { at }) if at == n)
        );
    }
    Ok(())
}

// The path that comes too late is refused at its last byte.
#[test]
fn a_path_out_of_order(rt: HostRuntime) -> Result<(), Fail> {
    let alloc = rt.alloc();
    let ball = ball(alloc, b"b", b"a").ok_or("a ball")?;
    let bytes = spelled(alloc, &ball).ok_or("its bytes")?;
    let place = 4 + 1 + 2 + 1 + 7 * 4 + (2 + 4) + 8 + (2 + 1 + 5) + 2;
    assert!(rt;
        matches!(take_record(alloc, 1, &bytes), Err(CodecFault::BadRecord { at }) if at == place)
    );
    Ok(())
}
