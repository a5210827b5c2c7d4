// The registers that drive a lock, by number.

/// The registers that drive the looks.
#[derive(Clone, Copy)]
pub struct LookDrive {
    pub addr: usize,
    pub ticket: usize,
}

/// Those that drive a reservation for writing.
#[derive(Clone, Copy)]
pub struct ReserveDrive {
    pub enable: usize,
    pub addr: usize,
}

/// Those that drive a write.
#[derive(Clone, Copy)]
pub struct WriteDrive {
    pub enable: usize,
    pub ticket: usize,
    pub value: usize,
}

/// Those that drive the releases and the squash.
#[derive(Clone, Copy)]
pub struct EndDrive {
    pub release: usize,
    pub release2: usize,
    pub squash: usize,
    pub tail: usize,
}

/// Those that drive all ports.
#[derive(Clone, Copy)]
pub struct PortDrive {
    pub reserve: ReserveDrive,
    pub reserve2: ReserveDrive,
    pub write: WriteDrive,
    pub write2: WriteDrive,
    pub end: EndDrive,
}
