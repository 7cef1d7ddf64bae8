use std::fs::{self, File, Files, OpenOptions, Permissions};
use std::io::{self, ErrorKind};
use std::os::fd::AsRawFd;
use std::os::unix::fs::{FileExt, MetadataExt, OpenOptionsExt, PermissionsExt};
use std::path::Path;

// The greatest descriptor of a standard stream.
const LAST_STREAM: i32 = 2;

// The mode of a file that is made. A journal may hold a key's seed, so only its owner reads it.
const FOR_ITS_OWNER: u32 = 0o600;

// The bit of a mode that lets the owner write.
const OWNER_WRITES: u32 = 0o200;

// The bits of a mode that let anybody else write a file.
const OTHERS_WRITE: u32 = 0o022;

// The mode of a file of which a sync failed: not even its owner may write.
const MARKED: u32 = 0o400;

// A file that is held: which one it is, by device and number, and how far it reaches, as was seen or written last.
#[derive(Drop)]
struct HeldFile {
    file: File,
    dev: u64,
    ino: u64,
    end: u64,
}

// A file that is opened when it is first asked for, and then held alone. While it is missing it has no bytes.
#[derive(Drop)]
pub struct LazyFile<'a, R: Files<File = File>> {
    files: &'a R,
    path: &'a str,
    file: Option<HeldFile>,
    // Whether it was missing when it was first asked for. It then stays missing until this one makes it: what somebody
    // else made in between was never looked at, and the first write would spoil it.
    is_missing: bool,
    // The folder that has the file's name, from its opening to its sync.
    folder: Option<File>,
}

impl<'a, R: Files<File = File>> LazyFile<'a, R> {
    pub fn new(files: &'a R, path: &'a str) -> LazyFile<'a, R> {
        LazyFile {
            files,
            path,
            file: None,
            is_missing: false,
            folder: None,
        }
    }

    // Takes the file where it isn't held yet and is there, and answers whether it is held.
    pub fn find(&mut self) -> io::Result<bool> {
        if self.file.is_none() && !self.is_missing {
            self.open()?;
        }
        Ok(self.file.is_some())
    }

    // Takes the file, and makes it where it is missing.
    pub fn make(&mut self) -> io::Result<()> {
        if !self.find()? {
            self.file = Some(self.take(true)?);
        }
        Ok(())
    }

    // Opens the file where it is there. A link isn't followed: the folder that is synced has to be the one that keeps
    // the file's name. A folder or a device isn't even opened, since with some devices that alone does something.
    fn open(&mut self) -> io::Result<()> {
        match fs::symlink_metadata(self.files, self.path) {
            Ok(found) if found.is_file() => self.file = Some(self.take(false)?),
            Ok(_) => return Err(ErrorKind::Unsupported.into()),
            Err(error) if error.kind() == ErrorKind::NotFound => self.is_missing = true,
            Err(error) => return Err(error),
        }
        Ok(())
    }

    // Opens the file, or makes it where nobody else did, and locks it until it is closed.
    fn take(&self, makes: bool) -> io::Result<HeldFile> {
        let mut options = OpenOptions::new();
        options.read(true).write(true);
        options.create_new(makes).mode(FOR_ITS_OWNER);
        let mut file = options.open(self.files, self.path)?;
        // Where a standard stream was closed at the start, the system gives the file its number, and what is written
        // to the stream would land in the file.
        if file.as_raw_fd() <= LAST_STREAM {
            file = file.try_clone()?;
        }
        file.try_lock()?;
        let found = file.metadata()?;
        let (dev, ino, end) = (found.dev(), found.ino(), 0);
        let mut held = HeldFile {
            file,
            dev,
            ino,
            end,
        };
        // Behind the lock, since in front of it somebody could still put another file in its place.
        if !makes {
            self.check(&mut held)?;
        }
        // From now on the file is its owner's alone, and a new one is so whatever the mask is. Only the owner, or root,
        // may set a mode: of a file that is somebody else's this fails, and so would the mark of a sync that failed.
        held.file
            .set_permissions(Permissions::from_mode(FOR_ITS_OWNER))?;
        self.check(&mut held)?;
        Ok(held)
    }

    // Fails unless this is the regular file at the path, has no other name, its owner may write and nobody else, and
    // nobody cut it. Since it is held, its number is no other file's, and so the path alone is asked.
    fn check(&self, held: &mut HeldFile) -> io::Result<()> {
        let named = fs::symlink_metadata(self.files, self.path)?;
        let is_at_path = named.dev() == held.dev && named.ino() == held.ino;
        let is_alone = named.is_file() && named.nlink() == 1;
        let is_its_owners = named.mode() & OWNER_WRITES != 0 && named.mode() & OTHERS_WRITE == 0;
        let is_whole = named.len() >= held.end;
        if is_at_path && is_alone && is_its_owners && is_whole {
            held.end = named.len();
            Ok(())
        } else {
            Err(ErrorKind::Unsupported.into())
        }
    }

    pub fn len(&self) -> io::Result<u64> {
        match &self.file {
            Some(held) => Ok(held.file.metadata()?.len()),
            None => Ok(0),
        }
    }

    // Fails where the file ends before a place, as where somebody cut it: in front of what is written there would be
    // zeros that nobody wrote. In front of the end that was seen last nobody is asked: where the file was cut since
    // then, the next sync finds it too short.
    pub fn reach(&mut self, place: u64) -> io::Result<()> {
        let held = held(&mut self.file)?;
        if place >= held.end && held.file.metadata()?.len() < place {
            return Err(ErrorKind::UnexpectedEof.into());
        }
        Ok(())
    }

    pub fn read_at(&self, place: u64, room: &mut [u8]) -> io::Result<()> {
        match &self.file {
            Some(held) => held.file.read_exact_at(room, place),
            None if room.is_empty() => Ok(()),
            None => Err(ErrorKind::UnexpectedEof.into()),
        }
    }

    pub fn write_at(&mut self, place: u64, bytes: &[u8]) -> io::Result<()> {
        let held = held(&mut self.file)?;
        held.file.write_all_at(bytes, place)?;
        let end = place.saturating_add(bytes.len() as u64);
        held.end = held.end.max(end);
        Ok(())
    }

    // The first sync, for which the folder was opened, lets the mode last too. Behind it the bytes and the length are
    // all that changes, and to let the times last as well would cost each write in place a commit of the file system.
    pub fn sync_bytes(&mut self) -> io::Result<()> {
        let held = held(&mut self.file)?;
        match &self.folder {
            Some(_) => held.file.sync_all(),
            None => held.file.sync_data(),
        }
    }

    pub fn open_folder(&mut self) -> io::Result<()> {
        self.folder = Some(folder_of(self.files, self.path)?);
        Ok(())
    }

    // Syncs the folder, and closes it.
    pub fn sync_name(&mut self) -> io::Result<()> {
        match self.folder.take() {
            Some(folder) => folder.sync_all(),
            None => Err(ErrorKind::NotFound.into()),
        }
    }

    // Behind a sync that failed the system may take for written what the disk doesn't have, bytes or the file's name,
    // and no later sync tells of it. So the file is marked, and no later opening takes it. The mark lasts no shorter than
    // these bytes, since both are in the system's memory. That this user may set it was seen at the opening. Where it
    // can't be set even so, as on a device that fails, the sync has failed all the same.
    pub fn mark(&self) {
        if let Some(held) = &self.file {
            let _ = held.file.set_permissions(Permissions::from_mode(MARKED));
        }
    }

    // Fails where somebody replaced, renamed, cut or opened to others what is held.
    pub fn look(&mut self) -> io::Result<()> {
        let mut held = match self.file.take() {
            Some(held) => held,
            None => return Err(ErrorKind::NotFound.into()),
        };
        let answer = self.check(&mut held);
        self.file = Some(held);
        answer
    }
}

// The file, which is held.
fn held(file: &mut Option<HeldFile>) -> io::Result<&mut HeldFile> {
    match file {
        Some(held) => Ok(held),
        None => Err(ErrorKind::NotFound.into()),
    }
}

// The folder of the file at a path.
fn folder_of<R: Files<File = File>>(files: &R, path: &str) -> io::Result<File> {
    let folder = match Path::new(path).parent() {
        Some(folder) if folder != Path::new("") => folder,
        _ => Path::new("."),
    };
    OpenOptions::new().read(true).open(files, folder)
}
