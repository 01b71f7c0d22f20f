//! Modules from files.
use script::groups::LIMIT;
use script::problems::Problem;
use std::fs::File;
use std::io::Read;

// One byte past the limit is enough to refuse a file.
fn read(rt: &HostRuntime, path: &[u8]) -> anyhow::Result<Vec<u8>> {
    let file = File::open(rt, std::str::from_utf8(path)?)?;
    let mut bytes = Vec::new(rt.alloc());
    file.take(LIMIT as u64 + 1).read_to_end(&mut bytes)?;
    Ok(bytes)
}

/// The bytes of a file.
pub(crate) fn load(rt: &HostRuntime, path: &[u8]) -> Result<Vec<u8>, Problem> {
    let bytes = read(rt, path).map_err(|_| Problem::NoFile)?;
    if bytes.len() > LIMIT {
        Err(Problem::TooManyBytes)
    } else {
        Ok(bytes)
    }
}
