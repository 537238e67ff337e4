//! Looks over a fabric: prints its labels and ways between them hop by hop, closes links, and writes the chart of what is left.
#![tactic(auto)]

mod complaints;
mod reports;
mod requests;

use complaints::Complaint;
use reports::{File, survey_of};
use requests::{Source, read};
use std::process::ExitCode;
use std::{env, fs};

// What the chart's file holds, where the fabric comes from one.
fn chart(rt: &HostRuntime, source: &Source) -> Result<Vec<u8>, Complaint> {
    let Source::Chart { file } = source else {
        return Ok(Vec::new(rt.alloc()));
    };
    fs::read(rt, file).try_map_err(|error| {
        Ok(Complaint::Input {
            file: file.clone()?,
            error,
        })
    })
}

fn save(rt: &HostRuntime, file: File) -> Result<(), Complaint> {
    let File { name, bytes } = file;
    fs::write(rt, &name, &bytes).map_err(|error| Complaint::Output { file: name, error })
}

fn survey(rt: &HostRuntime) -> Result<(), Complaint> {
    let heap = rt.alloc();
    let request = read(heap, env::args(rt)?.skip(1).collect(heap)?)?;
    let chart = chart(rt, &request.source)?;
    let report = survey_of(heap, request, &chart)?;
    for file in report.files {
        save(rt, file)?;
    }
    rt.print(report.text)?;
    Ok(())
}

fn main(rt: HostRuntime) -> ExitCode {
    match survey(&rt) {
        Ok(()) => ExitCode::SUCCESS,
        Err(complaint) => {
            // where standard error takes nothing, the status tells alone
            let _ = eprintln!(rt; "survey: {complaint}");
            ExitCode::FAILURE
        }
    }
}

#[cfg(test)]
mod tests {
    use super::*;
    use crate::reports::Report;
    use std::alloc::Global;
    use std::test::Fail;

    // The survey for a line of words and the bytes of a chart.
    fn surveyed(heap: Global, line: &str, chart: &[u8]) -> Result<Report, Complaint> {
        let words = line
            .split_whitespace()
            .map(|word| String::from_str(heap, word))
            .try_collect(heap)?;
        survey_of(heap, read(heap, words)?, chart)
    }

    // What is said for a line of words and the bytes of a chart.
    fn said(heap: Global, line: &str, chart: &[u8]) -> Result<String, Fail> {
        match surveyed(heap, line, chart) {
            Ok(report) => Ok(report.text),
            Err(complaint) => Ok(complaint.to_string(heap)?),
        }
    }

    // Two nodes, of which the second names 9 at port 3.
    const DAMAGED: [u8; 24] = [
        0, 0, 0, 0, 1, 255, 255, 255, 255, 255, 255, 255, 0, 0, 0, 1, 0, 255, 255, 9, 255, 255,
        255, 255,
    ];

    const WORDS: &str = "the words should be: mesh ROWS COLUMNS [way FROM TO]...";

    const SIZE: &str = "refusal 1: a mesh has at least 1 row and 1 column, and at most 128 nodes";

    #[test]
    fn complains_in_plain_words(rt: HostRuntime) -> Result<(), Fail> {
        let heap = rt.alloc();
        let cases = [
            ("", WORDS),
            ("mesh 4", WORDS),
            ("ring 4 4", WORDS),
            ("mesh 4 4 way 6", WORDS),
            ("mesh 4 4 path 6 13", WORDS),
            ("mesh four 4", "'four' is not a number from 0 to 4294967295"),
            ("mesh 4 -1", "'-1' is not a number from 0 to 4294967295"),
            (
                "mesh 4 4294967296",
                "'4294967296' is not a number from 0 to 4294967295",
            ),
            ("mesh 0 4", SIZE),
            ("mesh 129 1", SIZE),
            ("mesh 4294967295 4294967295", SIZE),
            (
                "mesh 4 4 way 16 0",
                "label 16 does not exist: the labels are 0 to 15",
            ),
            (
                "mesh 4 4 way 0 256",
                "label 256 does not exist: the labels are 0 to 15",
            ),
        ];
        for (line, expected) in cases {
            assert_eq!(rt; said(heap, line, &[])?.as_str(), expected, "{}", line);
        }
        Ok(())
    }

    #[test]
    fn complains_of_cubes_charts_and_links(rt: HostRuntime) -> Result<(), Fail> {
        let cases = [
            ("mesh", WORDS),
            ("mesh four", WORDS),
            ("cube", WORDS),
            ("chart", WORDS),
            ("mesh 4 4 write", WORDS),
            ("cube -1", "'-1' is not a number from 0 to 4294967295"),
            ("cube 8", "refusal 2: a cube has at most 7 dimensions"),
            (
                "chart a.cht",
                "refusal 4 of 'a.cht' at record 1, port 3: a port leads to a label that exists, or is 255 for none",
            ),
            (
                "mesh 4 4 close 0 256",
                "refusal 10 to close 0 - 256: a link joins labels that exist",
            ),
            (
                "mesh 4 4 close 6 9 close 9 6",
                "refusal 13 to close 9 - 6: a link is closed once",
            ),
        ];
        for (line, expected) in cases {
            assert_eq!(rt;
                said(rt.alloc(), line, &DAMAGED)?.as_str(),
                expected,
                "{}",
                line
            );
        }
        Ok(())
    }

    #[test]
    fn prints_grid_and_ways(rt: HostRuntime) -> Result<(), Fail> {
        let text = said(rt.alloc(), "mesh 2 3 way 0 4 way 2 2", &[])?;
        assert_eq!(rt;
            text.as_str(),
            "mesh: rows 2, columns 3, nodes 6\n   0   1   2\n   5   4   3\nway from 0 to 4: length 2\n   0 -> 1\n   1 -> 4\nway from 2 to 2: length 0\n"
        );
        Ok(())
    }

    #[test]
    fn prints_what_it_does(rt: HostRuntime) -> Result<(), Fail> {
        assert_eq!(rt;
            said(
                rt.alloc(),
                "mesh 2 3 way 0 4 way 2 2 close 0 5 way 0 5",
                &[],
            )?
            .as_str(),
            "mesh: rows 2, columns 3, nodes 6\n   0   1   2\n   5   4   3\nway from 0 to 4: length 2\n   0 -> 1\n   1 -> 4\nway from 2 to 2: length 0\nclosed 0 - 5\nway from 0 to 5: length 3\n   0 -> 1\n   1 -> 4\n   4 -> 5\n"
        );
        assert_eq!(rt;
            said(rt.alloc(), "mesh 2 2 close 0 3 show", &[])?.as_str(),
            "mesh: rows 2, columns 2, nodes 4\n   0   1\n   3   2\nclosed 0 - 3\nlabel     address  p0  p1  p2  p3  p4  p5  p6  p7\n    0           0   1   -   -   -   -   -   -   -\n    1           1   -   0   2   -   -   -   -   -\n    2         257   -   3   -   1   -   -   -   -\n    3         256   2   -   -   -   -   -   -   -\n"
        );
        assert_eq!(rt;
            said(rt.alloc(), "cube 1 write made.cht", &[])?.as_str(),
            "cube: dimension 1, nodes 2\nlabel     address  p0  p1  p2  p3  p4  p5  p6  p7\n    0           0   1   -   -   -   -   -   -   -\n    1           1   0   -   -   -   -   -   -   -\nwrote made.cht: 24 bytes\n"
        );
        Ok(())
    }

    // The files of a survey, written and read back.
    fn keep(rt: &HostRuntime, report: Report) -> Result<Vec<u8>, Complaint> {
        for file in report.files {
            save(rt, file)?;
        }
        let file = String::from_str(rt.alloc(), "made.cht")?;
        chart(rt, &Source::Chart { file })
    }

    #[test]
    fn writes_a_chart_that_it_reads(rt: HostRuntime) -> Result<(), Fail> {
        let heap = rt.alloc();
        let made = surveyed(heap, "cube 2 close 0 3 write made.cht", &[])?;
        let bytes = keep(&rt, made)?;
        assert_eq!(rt;
            surveyed(heap, "chart made.cht way 0 3", &bytes)?
                .text
                .as_str(),
            "chart: file made.cht, nodes 4\nlabel     address  p0  p1  p2  p3  p4  p5  p6  p7\n    0           0   1   -   -   -   -   -   -   -\n    1           1   0   2   -   -   -   -   -   -\n    2           3   3   1   -   -   -   -   -   -\n    3           2   2   -   -   -   -   -   -   -\nway from 0 to 3: length 3\n   0 -> 1\n   1 -> 2\n   2 -> 3\n"
        );
        Ok(())
    }

    // What is said of a file that should be read, and of one that should be written.
    fn refused(rt: &HostRuntime, name: &str) -> Result<(String, String), Fail> {
        let heap = rt.alloc();
        let file = String::from_str(heap, name)?;
        let name = file.clone()?;
        let bytes = Vec::new(heap);
        let unread = chart(rt, &Source::Chart { file })
            .err()
            .ok_or("the file was read")?;
        let unwritten = save(rt, File { name, bytes })
            .err()
            .ok_or("the file was written")?;
        Ok((unread.to_string(heap)?, unwritten.to_string(heap)?))
    }

    #[test]
    fn says_which_file_is_missing(rt: HostRuntime) -> Result<(), Fail> {
        let (unread, unwritten) = refused(&rt, "nowhere/made.cht")?;
        assert_eq!(rt;
            unread.as_str(),
            "'nowhere/made.cht' cannot be read: No such file or directory (os error 2)"
        );
        assert_eq!(rt;
            unwritten.as_str(),
            "'nowhere/made.cht' cannot be written: No such file or directory (os error 2)"
        );
        Ok(())
    }
}
