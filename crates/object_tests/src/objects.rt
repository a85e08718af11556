//! The text of an image.
use crate::pipe::pipe;
use object_io::write_object;
use std::test::Fail;

#[test]
fn writes_the_object_of_a_pipe(rt: HostRuntime) -> Result<(), Fail> {
    let wanted = "systole 2\narray 1 x 2\nbuffer 0\nbound 6\n\
        message 0 from 0 to 1 length 1 label 0 route 1\n\
        link 1 queues 1 groups 0:0\n\
        cell 0 takes 0 emits 0 words 0 counters 0 stack 1\npush 7\nwrite 0\nhalt\n\
        cell 1 takes 0 emits 1 words 1 counters 0 stack 1\nread 0 0\nload 0\nemit\nhalt\nend\n";
    let Some(image) = pipe(rt.alloc())? else {
        return Err("no grid".into());
    };
    let text = write_object(rt.alloc(), &image)?;
    assert_eq!(rt; text.as_slice(), wanted.as_bytes());
    Ok(())
}
