//! How many bytes a server may hold, if nobody says it: three quarters of the least limit that can be read.
use std::alloc::Global;
use std::fs;
use std::fs::Files;

/// What a thread reserves of the address space for its stack, at most.
const STACK_SPACE: u64 = 1_048_576;

/// What a thread reserves of it for a heap of its own, unless the C library is told to have one for all.
const HEAP_SPACE: u64 = 67_108_864;

/// What a worker holds beside what it is granted, at most: of a body that arrives, a part that has just come whole,
/// and room for the next.
const BESIDE: u64 = 8_388_608;

/// A page, in which the kernel counts.
const PAGE: u64 = 4_096;

/// What tells the C library so, among others in its variable of the environment.
const ONE_HEAP: &str = "glibc.malloc.arena_max=1";

/// The most folders that a path of a control group has.
const MOST_FOLDERS: usize = 64;

/// The lesser of two limits, where one that can't be read doesn't count.
fn least(one: Option<u64>, other: Option<u64>) -> Option<u64> {
    match (one, other) {
        (Some(one), Some(other)) => Some(one.min(other)),
        (one, other) => one.or(other),
    }
}

/// The number in a word of a line that begins so.
fn number_in(text: &str, begin: &str, word: usize) -> Option<u64> {
    let line = text.lines().find(|line| line.starts_with(begin))?;
    line.split_whitespace().nth(word)?.parse().ok()
}

/// A file's text, if it can be read.
fn text_of<R: Files + AllocGlobal>(rt: &R, path: &str) -> Option<String> {
    fs::read_to_string(rt, path).ok()
}

/// The memory of the machine.
fn machine_limit<R: Files + AllocGlobal>(rt: &R) -> Option<u64> {
    let text = text_of(rt, "/proc/meminfo")?;
    number_in(&text, "MemTotal:", 1)?.checked_mul(1_024)
}

/// What a thread reserves of the address space, by what the C library is told.
fn thread_space(told: &str) -> u64 {
    if told.split(':').any(|setting| setting == ONE_HEAP) {
        STACK_SPACE
    } else {
        STACK_SPACE + HEAP_SPACE
    }
}

/// The address space that the program takes already.
fn space_taken<R: Files + AllocGlobal>(rt: &R) -> Option<u64> {
    let text = text_of(rt, "/proc/self/statm")?;
    number_in(&text, "", 0)?.checked_mul(PAGE)
}

/// The limit on the address space, less what the program takes of it and so many threads reserve.
fn space_limit<R: Files + AllocGlobal>(rt: &R, threads: u64, told: &str) -> Option<u64> {
    let text = text_of(rt, "/proc/self/limits")?;
    let space = number_in(&text, "Max address space", 3)?;
    let space = space.saturating_sub(space_taken(rt).unwrap_or(0));
    Some(space.saturating_sub(threads.saturating_mul(thread_space(told))))
}

/// The limit of a control group and of each group that it is in, by a line that names the group.
fn group_limit<R: Files + AllocGlobal>(rt: &R, alloc: Global, line: &str) -> Option<u64> {
    let (_, behind) = line.split_once(':')?;
    let (controllers, path) = behind.split_once(':')?;
    let (root, file) = match controllers {
        "" => ("/sys/fs/cgroup", "memory.max"),
        _ if controllers.split(',').any(|name| name == "memory") => {
            ("/sys/fs/cgroup/memory", "memory.limit_in_bytes")
        }
        _ => return None,
    };
    let mut path = path.trim_end_matches('/');
    let mut limit = None;
    for _ in 0..MOST_FOLDERS {
        let name = format!(in alloc; "{root}{path}/{file}").ok()?;
        let read = text_of(rt, &name).and_then(|text| text.trim().parse().ok());
        limit = least(limit, read);
        match path.rsplit_once('/') {
            Some((parent, _)) => path = parent,
            None => break,
        }
    }
    limit
}

/// The limit of the control groups that the program is in.
fn groups_limit<R: Files + AllocGlobal>(rt: &R) -> Option<u64> {
    let text = text_of(rt, "/proc/self/cgroup")?;
    let mut limit = None;
    for line in text.lines() {
        limit = least(limit, group_limit(rt, rt.alloc(), line));
    }
    limit
}

/// How many bytes a server with so many threads may hold, if the C library is told this: three quarters of the least of
/// the memory of the machine, the limits of its control groups, and the limit on its address space less what it takes
/// and the threads reserve; but first each thread has what it may hold beside what it is granted. A limit that can't
/// be read doesn't count. `None` if none can be.
pub fn usual_memory<R: Files + AllocGlobal>(rt: &R, threads: u64, told: &str) -> Option<u64> {
    let limit = least(machine_limit(rt), groups_limit(rt));
    let limit = least(limit, space_limit(rt, threads, told))?;
    let limit = limit.saturating_sub(threads.saturating_mul(BESIDE));
    Some(limit / 4 * 3)
}

#[cfg(test)]
mod tests {
    use super::*;

    #[test]
    fn limits_are_read(rt: HostRuntime) {
        let text =
            "Limit  Soft  Hard  Units\nMax address space   1000   unlimited   bytes\nMemTotal:   12 kB\n";
        for (begin, word, number) in [
            ("MemTotal:", 1, Some(12)),
            ("Max address space", 3, Some(1_000)),
            ("Max address space", 4, None),
            ("Nothing", 0, None),
        ] {
            assert_eq!(rt; number_in(text, begin, word), number, "{begin}");
        }
        assert_eq!(rt; least(None, Some(3)), Some(3));
        assert_eq!(rt; least(Some(2), Some(3)), Some(2));
    }

    #[test]
    fn one_heap_is_one_heap(rt: HostRuntime) {
        for (told, space) in [
            ("", STACK_SPACE + HEAP_SPACE),
            ("glibc.malloc.arena_max=16", STACK_SPACE + HEAP_SPACE),
            ("glibc.malloc.arena_max=1:glibc.malloc.check=0", STACK_SPACE),
        ] {
            assert_eq!(rt; thread_space(told), space, "{told}");
        }
    }
}
