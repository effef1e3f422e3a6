/// A line of bytes in hexadecimal behind a label.
pub fn print_bytes(rt: &HostRuntime, label: &str, bytes: &[u8]) -> anyhow::Result<()> {
    print!(rt; "{label}")?;
    for b in bytes {
        print!(rt; " {b:02x}")?;
    }
    println!(rt; "")?;
    Ok(())
}
