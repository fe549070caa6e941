//! The program on the files of the system.
use crate::stops::{FORMS, ONE_BY_ONE, answers_to};
use crate::system::the_system_is_honest;
use command_words::Syncs;
use std::test::Fail;
use std::{env, fs, process};
use system_folders::Syncing;

/// A folder that no other test has.
fn free_folder(rt: &HostRuntime) -> Result<String, Fail> {
    let place = env::temp_dir(rt)?;
    Ok(format!(in rt.alloc();
        "{}/machine_tests-{}",
        place.display(),
        process::id(rt.process())
    )?)
}

#[test]
fn the_next_program_finds_what_the_files_hold(rt: HostRuntime) -> Result<(), Fail> {
    let dir = free_folder(&rt)?;
    let words = ["pazturrok", "run", dir.as_str(), ONE_BY_ONE];
    for syncs in [Syncs::Two, Syncs::One] {
        let system = Syncing::new(&rt, syncs);
        the_system_is_honest(&rt, &system);
        let answers = answers_to(rt.alloc(), &system, &words, FORMS);
        assert!(rt; answers.as_slice() == b"1\n2\n3\n".as_slice());
        let found = answers_to(rt.alloc(), &rt, &words, b"(GET 'A 'B)\n");
        assert!(rt; found.as_slice() == b"3\n".as_slice());
    }
    fs::remove_dir_all(&rt, dir.as_str())?;
    Ok(())
}
