// Each call over sources and sinks in memory and of std.
use byte_edge::{
    MemSink, MemSource, Pending, ReadEnd, Sink, Source, StdSink, StdSource, WriteFault, flush,
    read_all, send_byte, send_bytes, write_all,
};
use std::test::Fail;

#[test]
fn a_source_fails_at_its_calls(rt: HostRuntime) -> Result<(), Fail> {
    let alloc = rt.alloc();
    let mut source = MemSource::of(vec![in alloc; 7, 8, 9]?, vec![in alloc; 1]?);
    assert_eq!(rt;
        read_all(alloc, &mut source, 9).err(),
        Some(ReadEnd::ReadFault)
    );
    let mut buffer = [0; 2];
    assert_eq!(rt; source.take(&mut buffer).ok(), Some(2));
    assert_eq!(rt; buffer, [7, 8]);
    assert_eq!(rt; read_all(alloc, &mut source, 9)?.as_slice(), [9].as_slice());
    Ok(())
}

#[test]
fn a_source_is_read_up_to_its_limit(rt: HostRuntime) -> Result<(), Fail> {
    let alloc = rt.alloc();
    let mut exact = MemSource::of(vec![in alloc; 7, 8, 9]?, Vec::new(alloc));
    assert_eq!(rt;
        read_all(alloc, &mut exact, 3)?.as_slice(),
        [7, 8, 9].as_slice()
    );
    let mut large = MemSource::of(vec![in alloc; 7, 8, 9]?, Vec::new(alloc));
    assert_eq!(rt;
        read_all(alloc, &mut large, 2).err(),
        Some(ReadEnd::TooLarge)
    );
    let mut long = MemSource::of(vec![in alloc; 5; 70000]?, Vec::new(alloc));
    assert_eq!(rt;
        read_all(alloc, &mut long, 69999).err(),
        Some(ReadEnd::TooLarge)
    );
    Ok(())
}

#[test]
fn a_sink_fails_at_its_calls(rt: HostRuntime) -> Result<(), Fail> {
    let alloc = rt.alloc();
    let mut sink = MemSink::of(alloc, vec![in alloc; 1]?);
    assert_eq!(rt; write_all(&mut sink, &[1]).err(), Some(WriteFault));
    assert_eq!(rt; sink.put(&[4, 5]).ok(), Some(2));
    assert_eq!(rt; write_all(&mut sink, &[6]).err(), None);
    assert_eq!(rt; sink.bytes(), [4, 5, 6].as_slice());
    Ok(())
}

#[test]
fn std_is_read_and_written(rt: HostRuntime) -> Result<(), Fail> {
    let alloc = rt.alloc();
    let mut source = StdSource::of([3, 4].as_slice());
    assert_eq!(rt;
        read_all(alloc, &mut source, 9)?.as_slice(),
        [3, 4].as_slice()
    );
    let mut sink = StdSink::of(Vec::new(alloc));
    assert_eq!(rt; write_all(&mut sink, &[3, 4]).err(), None);
    assert_eq!(rt; sink.into_writer().as_slice(), [3, 4].as_slice());
    Ok(())
}

#[test]
fn what_waits_is_put_in_pieces(rt: HostRuntime) -> Result<(), Fail> {
    let alloc = rt.alloc();
    let mut sink = MemSink::of(alloc, Vec::new(alloc));
    let mut pending = Pending::new();
    let bytes = vec![in alloc; 7; 9000]?;
    assert_eq!(rt; send_bytes(&mut sink, &mut pending, &bytes).err(), None);
    assert_eq!(rt; send_byte(&mut sink, &mut pending, 8).err(), None);
    assert_eq!(rt; sink.bytes().len(), 8192);
    assert_eq!(rt; flush(&mut sink, &mut pending).err(), None);
    assert_eq!(rt; sink.bytes().len(), 9001);
    assert_eq!(rt; sink.bytes().last(), Some(&8));
    Ok(())
}
