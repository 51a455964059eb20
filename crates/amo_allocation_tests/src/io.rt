//! A room for a text, out of memory, and its calls that take none.
use amo_io::{Bytes, Failed, ReadFault, Room, Sink, Source, read_at_most};
use std::alloc::Global;
use std::process::Abort;

/// All bytes, or out of memory.
#[test]
fn refused_read_at_most(rt: HostRuntime) {
    match read_at_most(rt.alloc(), &mut Bytes::new(b"some bytes"), 11) {
        Ok(bytes) => assert!(rt; bytes.as_slice() == b"some bytes".as_slice()),
        Err(fault) => assert!(rt; fault == ReadFault::NoMemory),
    }
}

/// A room that takes as much as it was made for, or out of memory.
#[test]
fn refused_room(rt: HostRuntime) {
    if let Ok(mut room) = Room::new(rt.alloc(), 3) {
        assert!(rt; room.write(b"abcd") == Ok(3));
        assert!(rt; room.write(b"d") == Err(Failed));
        assert!(rt; room.write(b"") == Ok(0));
        assert!(rt; room.as_slice() == b"abc".as_slice());
    }
}

/// Reads four bytes into a room for three, as far as they go, and looks at it.
fn use_room(mut room: Room) {
    let mut source = Bytes::new(b"abcd");
    let mut buf = [0u8; 2];
    for _ in 0..3 {
        let _count = source.read(&mut buf);
        let _taken = room.write(&buf);
        let _passed = room.flush();
        let _held = room.as_slice();
    }
}

/// Makes 100 rooms, of which so many are used.
fn use_rooms(rt: &impl Abort, alloc: Global, count: u32) {
    for i in 0..100 {
        let room = Room::new(alloc, 3).expect(rt, "no memory");
        if i < count {
            use_room(room);
        }
    }
}

#[test]
fn a_room_takes_no_memory_once(rt: HostRuntime) {
    use_rooms(&rt, rt.alloc(), 1);
}

#[test]
fn a_room_takes_no_memory_often(rt: HostRuntime) {
    use_rooms(&rt, rt.alloc(), 100);
}
