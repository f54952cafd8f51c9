//! Tests of `file_generator`: the files of a seed. The sizes and bytes were worked out by a program in another language,
//! whose words agree with those that the generator's authors publish for seed 0.

use carousel_writer::*;
use file_generator::gen_files;
use std::test::Fail;

#[test]
fn files_of_a_seed(rt: HostRuntime) -> Result<(), Fail> {
    let alloc = rt.alloc();
    let files = gen_files(alloc, 1, 4)?;
    assert!(rt; files.pid == 256 && files.transaction == 1 && files.download == 1);
    assert!(rt; files.block_size == 4000 && files.rounds == 2 && files.modules.len() == 5);
    let wanted = [
        (1, 26_574, 238, 76),
        (2, 40_219, 154, 155),
        (3, 14_219, 214, 14),
        (4, 43_236, 204, 27),
    ];
    for (number, size, first, last) in wanted {
        let module = files.modules.get(number).ok_or("no module")?;
        let bytes = module.bytes.as_slice();
        assert!(rt; module.id as usize == number && module.version == 1 && bytes.len() == size);
        assert!(rt; bytes.first() == Some(&first) && bytes.last() == Some(&last));
    }
    let menu = files.modules.get(0).ok_or("no module")?;
    assert!(rt; menu.id == 0 && menu.media.len() == 0 && menu.bytes.len() == 1282);
    Ok(())
}

#[test]
fn generated_files_are_written(rt: HostRuntime) -> Result<(), Fail> {
    let alloc = rt.alloc();
    let one = write_stream(alloc, &gen_files(alloc, 4_294_967_295, 1)?)?;
    let again = write_stream(alloc, &gen_files(alloc, 4_294_967_295, 1)?)?;
    assert!(rt; one.as_slice() == again.as_slice() && one.len() % 188 == 0);
    Ok(())
}
