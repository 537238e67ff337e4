//! What is printed, and the charts that are written.
ghost use Rattle.std.specs.Prelude.{◌≡◌, ◌<◌, ◌≤◌, Ok, Err};

use crate::complaints::Complaint;
use crate::requests::{Action, Ends, Request, Source};
use fabric::{Addressed, Chart, Cube, Fabric, Layout, Mesh, way, write_chart};
use std::alloc::Global;
use std::fmt::Write;

/// The text to print, and the files that are written before it is printed.
#[derive(Drop)]
pub(crate) struct Report {
    pub(crate) text: String,
    pub(crate) files: Vec<File>,
}

/// A file by its name, and what it is to hold.
#[derive(Drop)]
pub(crate) struct File {
    pub(crate) name: String,
    pub(crate) bytes: Vec<u8>,
}

// The number as a label, if it is one.
fn label<F: Fabric>(fabric: &F, number: u32) -> Result<u8, Complaint>
    ensures { elim result [ Ok l ↦ (l ≡ number) × (l < (F.Fabric.meaning fabric.now).nodes) | Err _ ↦ (F.Fabric.meaning fabric.now).nodes ≤ number ] }
{
    let size = fabric.size();
    u8::try_from(number)
        .ok()
        .filter(|label| *label < size)
        .ok_or(Complaint::NoLabel {
            label: number,
            last: size - 1,
        })
}

// The label 255 exists in no fabric, so it stands for every number that is too large for a label.
fn any_label(number: u32) -> u8 {
    u8::try_from(number).unwrap_or(u8::MAX)
}

fn chart_bytes<F: Addressed>(heap: Global, fabric: &F) -> Result<Vec<u8>, Complaint> {
    let mut bytes = vec![in heap; 0u8; 12 * usize::from(fabric.size())]?;
    write_chart(fabric, &mut bytes)?;
    Ok(bytes)
}

impl Report {
    // The size, then the labels row by row, each four characters wide.
    fn grid(&mut self, mesh: &Mesh) -> Result<(), Complaint> {
        let (rows, columns) = mesh.shape();
        let nodes = mesh.size();
        writeln!(
            self.text,
            "mesh: rows {rows}, columns {columns}, nodes {nodes}"
        )?;
        for y in 0..rows {
            for x in 0..columns {
                let label = mesh.label_at((x, y)).unwrap();
                write!(self.text, "{label:>4}")?;
            }
            writeln!(self.text)?;
        }
        Ok(())
    }

    // The neighbours of a label, port by port, each four characters wide.
    fn neighbours<F: Fabric>(&mut self, fabric: &F, label: u8) -> Result<(), Complaint> {
        for port in 0..8u8 {
            match fabric.neighbour(label, port) {
                Some(neighbour) => write!(self.text, "{neighbour:>4}")?,
                None => self.text.push_str("   -")?,
            }
        }
        writeln!(self.text)?;
        Ok(())
    }

    // A line for each label: its address and its neighbours.
    fn nodes<F: Addressed>(&mut self, fabric: &F) -> Result<(), Complaint> {
        writeln!(
            self.text,
            "label     address  p0  p1  p2  p3  p4  p5  p6  p7"
        )?;
        for label in 0..fabric.size() {
            let address = fabric.address(label).unwrap();
            write!(self.text, "{label:>5}{address:>12}")?;
            self.neighbours(fabric, label)?;
        }
        Ok(())
    }

    // The length, then a line for each hop.
    fn way<F: Fabric>(&mut self, fabric: &F, ends: Ends) -> Result<(), Complaint> {
        let from = label(fabric, ends.from)?;
        let to = label(fabric, ends.to)?;
        let path = way(fabric, from, to).unwrap();
        let hops = path.labels().array_windows::<2>();
        writeln!(self.text, "way from {from} to {to}: length {}", hops.len())?;
        for [u, v] in hops {
            writeln!(self.text, "{u:>4} -> {v}")?;
        }
        Ok(())
    }

    fn close<F: Fabric>(&mut self, layout: &mut Layout<F>, ends: Ends) -> Result<(), Complaint> {
        let Ends { from, to } = ends;
        layout
            .close((any_label(from), any_label(to)))
            .map_err(|refusal| Complaint::Link { ends, refusal })?;
        writeln!(self.text, "closed {from} - {to}")?;
        Ok(())
    }

    fn write<F: Addressed>(&mut self, fabric: &F, name: String) -> Result<(), Complaint> {
        let bytes = chart_bytes(*self.files.allocator(), fabric)?;
        writeln!(self.text, "wrote {name}: {} bytes", bytes.len())?;
        self.files.push(File { name, bytes })?;
        Ok(())
    }

    fn act<F: Addressed>(
        &mut self,
        layout: &mut Layout<F>,
        action: Action,
    ) -> Result<(), Complaint> {
        match action {
            Action::Way(ends) => self.way(layout, ends),
            Action::Close(ends) => self.close(layout, ends),
            Action::Show => self.nodes(layout),
            Action::Write { file } => self.write(layout, file),
        }
    }

    fn act_all<F: Addressed + Drop>(
        &mut self,
        fabric: F,
        actions: Vec<Action>,
    ) -> Result<(), Complaint> {
        let mut layout = Layout::new(fabric);
        for action in actions {
            self.act(&mut layout, action)?;
        }
        Ok(())
    }
}

// The chart in a file, if it passes.
fn opened(file: &String, bytes: &[u8]) -> Result<Chart, Complaint> {
    Chart::check(bytes).try_map_err(|fault| {
        Ok(Complaint::Chart {
            file: file.clone()?,
            fault,
        })
    })?;
    Ok(Chart::open(bytes))
}

/// The fabric, and then what is done with it. `chart` is what the file holds where the fabric is that of a chart.
pub(crate) fn survey_of(heap: Global, request: Request, chart: &[u8]) -> Result<Report, Complaint> {
    let mut report = Report {
        text: String::new(heap),
        files: Vec::new(heap),
    };
    let Request { source, actions } = request;
    match source {
        Source::Mesh { rows, columns } => {
            let mesh = Mesh::new(rows, columns)?;
            report.grid(&mesh)?;
            report.act_all(mesh, actions)?;
        }
        Source::Cube { dimension } => {
            let cube = Cube::new(dimension)?;
            writeln!(
                report.text,
                "cube: dimension {dimension}, nodes {}",
                cube.size()
            )?;
            report.nodes(&cube)?;
            report.act_all(cube, actions)?;
        }
        Source::Chart { file } => {
            let fabric = opened(&file, chart)?;
            writeln!(report.text, "chart: file {file}, nodes {}", fabric.size())?;
            report.nodes(&fabric)?;
            report.act_all(fabric, actions)?;
        }
    }
    Ok(report)
}
