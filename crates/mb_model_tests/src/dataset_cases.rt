//! Random datasets and what the format says of them, from the plain model in
//! tests/outside/dataset_model, which prints this file. Don't edit it.

use crate::random_datasets::Case;

/// Each text with its table: an entry is a count, or `*` for a structural zero.
pub const CASES: [Case; 38] = [
    Case {
        text: b"2,3,count\nx,1,0  \nu,1, *\n",
        factors: &[("2", &["x", "u"]), ("3", &["1"])],
        entries: b"0 *",
        written: b"2,3,count\nx,1,0\nu,1,*\n",
    },
    Case {
        text: b"\xef\xbb\xbfcount,|,\r\n5,1,2\r\n *,#x,\"2\"\r\n2  ,count,1\r\n",
        factors: &[("|", &["1", "#x", "count"]), ("", &["2", "1"])],
        entries: b"5 0 * 0 0 2",
        written: b"|,,count\n1,2,5\n1,1,0\n#x,2,*\n#x,1,0\ncount,2,0\ncount,1,2\n",
    },
    Case {
        text: b"\"3\",1,count\r\nw,u,1\r\n1,w,\"03\"\r\n\"z\",\"w\",3\r\n1,u, 0\r\n1,3,2\r\nw,3, \
        999\r\n\r\nz,3,12\r\nz,u,\" 00999  \"\r\nw,\"w\",999  ",
        factors: &[("3", &["w", "1", "z"]), ("1", &["u", "w", "3"])],
        entries: b"1 999 999 0 3 2 999 3 12",
        written: b"3,1,count\nw,u,1\nw,w,999\nw,3,999\n1,u,0\n1,w,3\n1,3,2\nz,u,999\nz,w,3\nz,3,1\
        2\n",
    },
    Case {
        text: b"y,1,\"v\",count\r\n3,3,x, 3\r\n3,u,x,1\r\n\"3\",u,y,\"1\"\r\n",
        factors: &[("y", &["3"]), ("1", &["3", "u"]), ("v", &["x", "y"])],
        entries: b"3 0 1 1",
        written: b"y,1,v,count\n3,3,x,3\n3,3,y,0\n3,u,x,1\n3,u,y,1\n",
    },
    Case {
        text: b"\"u\",z,count\nno,v,*\nno,1, 5\n",
        factors: &[("u", &["no"]), ("z", &["v", "1"])],
        entries: b"* 5",
        written: b"u,z,count\nno,v,*\nno,1,5\n",
    },
    Case {
        text: b"\"site\",*,\"count\"\nw,\"v\",\"01\"\n",
        factors: &[("site", &["w"]), ("*", &["v"])],
        entries: b"1",
        written: b"site,*,count\nw,v,1\n",
    },
    Case {
        text: b"\"\"\"q\"\"\",site,count\n#x,z,0\n#x,3,\"999\"\n",
        factors: &[("\"q\"", &["#x"]), ("site", &["z", "3"])],
        entries: b"0 999",
        written: b"\"\"\"q\"\"\",site,count\n#x,z,0\n#x,3,999\n",
    },
    Case {
        text: b"2,u,\"w\",3,count\r\nx,,a b,\"u\",02\r\nu,,a b,3,5  \r\nv,,a b,3,00\r\n",
        factors: &[
            ("2", &["x", "u", "v"]),
            ("u", &[""]),
            ("w", &["a b"]),
            ("3", &["u", "3"]),
        ],
        entries: b"2 0 0 5 0 0",
        written: b"2,u,w,3,count\nx,,a b,u,2\nx,,a b,3,0\nu,,a b,u,0\nu,,a b,3,5\nv,,a b,u,0\nv,,\
        a b,3,0\n",
    },
    Case {
        text: b"x,count,3,\"w\"\n02,\"12  \",1,3",
        factors: &[("x", &["02"]), ("3", &["1"]), ("w", &["3"])],
        entries: b"12",
        written: b"x,3,w,count\n02,1,3,12\n",
    },
    Case {
        text: b",\"\"\"q\"\"\",count\n2,3,003\n2,z,999  \n3,3, *  \n2,\"1\",12\n3,1,002\n3,\"z\",\
        \x20001\n",
        factors: &[("", &["2", "3"]), ("\"q\"", &["3", "z", "1"])],
        entries: b"3 999 12 * 1 2",
        written: b",\"\"\"q\"\"\",count\n2,3,3\n2,z,999\n2,1,12\n3,3,*\n3,z,1\n3,1,2\n",
    },
    Case {
        text: b"*,,count\n\"0\",\xef\xbb\xbfb,\"2\"\ncount,\xef\xbb\xbfb, 01  \ny,\"u\nv\",01\ny,\
        \xef\xbb\xbfb, 1\ny, x,12\ncount, x,3\n",
        factors: &[
            ("*", &["0", "count", "y"]),
            ("", &["\u{feff}b", "u\nv", " x"]),
        ],
        entries: b"2 0 0 1 0 3 1 1 12",
        written: b"*,,count\n0,\xef\xbb\xbfb,2\n0,\"u\nv\",0\n0, x,0\ncount,\xef\xbb\xbfb,1\ncoun\
        t,\"u\nv\",0\ncount, x,3\ny,\xef\xbb\xbfb,1\ny,\"u\nv\",1\ny, x,12\n",
    },
    Case {
        text: b"z,x,count\nz,\"u\nv\",999\nz,y,12\n",
        factors: &[("z", &["z"]), ("x", &["u\nv", "y"])],
        entries: b"999 12",
        written: b"z,x,count\nz,\"u\nv\",999\nz,y,12\n",
    },
    Case {
        text: b",b,\"count\"\n\",\",a b,*  \n\"u\nv\",\"u\nv\",5\n\",\",\"u\nv\",*\n\"u\nv\",a b,\
        \x200012\n\"u\nv\",\"\xef\xbb\xbfb\",3\n",
        factors: &[("", &[",", "u\nv"]), ("b", &["a b", "u\nv", "\u{feff}b"])],
        entries: b"* * 0 12 5 3",
        written: b",b,count\n\",\",a b,*\n\",\",\"u\nv\",*\n\",\",\xef\xbb\xbfb,0\n\"u\nv\",a b,1\
        2\n\"u\nv\",\"u\nv\",5\n\"u\nv\",\xef\xbb\xbfb,3\n",
    },
    Case {
        text: b"w,count,1\n\",\",*,z\nno, 005,z\n\",\",0  ,y\nno,3,\"x\"\nno,5,y\n\",\",05,x\n",
        factors: &[("w", &[",", "no"]), ("1", &["z", "y", "x"])],
        entries: b"* 0 5 5 5 3",
        written: b"w,1,count\n\",\",z,*\n\",\",y,0\n\",\",x,5\nno,z,5\nno,y,5\nno,x,3\n",
    },
    Case {
        text: b" a,Count,#n,count\n x,\",\",3,\"003  \"\n x,*,\"1\",03  \n x,*,3,\" 999  \"\n\" x\
        \",\",\",\"1\",\"999\"\n",
        factors: &[(" a", &[" x"]), ("Count", &[",", "*"]), ("#n", &["3", "1"])],
        entries: b"3 999 999 3",
        written: b" a,Count,#n,count\n x,\",\",3,3\n x,\",\",1,999\n x,*,3,999\n x,*,1,3\n",
    },
    Case {
        text: b"count,\"z\",x\n 0012,\" x\",v\n*,\"*\",v\n0,\"*\",z\n",
        factors: &[("z", &[" x", "*"]), ("x", &["v", "z"])],
        entries: b"12 0 * 0",
        written: b"z,x,count\n x,v,12\n x,z,0\n*,v,*\n*,z,0\n",
    },
    Case {
        text: b"\"count\",\"u\r\nv\",grade\n*,count,\"x,y\"\n999,count,a b\n",
        factors: &[("u\r\nv", &["count"]), ("grade", &["x,y", "a b"])],
        entries: b"* 999",
        written: b"\"u\r\nv\",grade,count\ncount,\"x,y\",*\ncount,a b,999\n",
    },
    Case {
        text: b"\xef\xbb\xbf1,x,v,3,count\r\n\",\",2,u,2,1  \r\n",
        factors: &[("1", &[","]), ("x", &["2"]), ("v", &["u"]), ("3", &["2"])],
        entries: b"1",
        written: b"1,x,v,3,count\n\",\",2,u,2,1\n",
    },
    Case {
        text: b"u,v,count\nx,u,999\n",
        factors: &[("u", &["x"]), ("v", &["u"])],
        entries: b"999",
        written: b"u,v,count\nx,u,999\n",
    },
    Case {
        text: b" ,,\"count\"\n3,u,12\n1,u, 999",
        factors: &[(" ", &["3", "1"]), ("", &["u"])],
        entries: b"12 999",
        written: b" ,,count\n3,u,12\n1,u,999\n",
    },
    Case {
        text: b"\"count,\",\xc3\xa9,\"u\r\nv\",*,count\r\n\r\nz,x,yes,3,999\r\nz,3,'x',3,02\r\nz,\
        3,'x',y,5\r\nz,3,yes,3,5\r\nz,3,yes,y, 00\r\nz,x,'x',y, 3\r\n",
        factors: &[
            ("count,", &["z"]),
            ("\u{e9}", &["x", "3"]),
            ("u\r\nv", &["yes", "'x'"]),
            ("*", &["3", "y"]),
        ],
        entries: b"999 0 0 3 5 0 2 5",
        written: b"\"count,\",\xc3\xa9,\"u\r\nv\",*,count\nz,x,yes,3,999\nz,x,yes,y,0\nz,x,'x',3,\
        0\nz,x,'x',y,3\nz,3,yes,3,5\nz,3,yes,y,0\nz,3,'x',3,2\nz,3,'x',y,5\n",
    },
    Case {
        text: b"\"x,y\",\"a\",count\r\nu,\"u\nv\",\"999\"\r\n",
        factors: &[("x,y", &["u"]), ("a", &["u\nv"])],
        entries: b"999",
        written: b"\"x,y\",a,count\nu,\"u\nv\",999\n",
    },
    Case {
        text: b"grade,a ,count,b\r\n3,2,01  ,u\r\n",
        factors: &[("grade", &["3"]), ("a ", &["2"]), ("b", &["u"])],
        entries: b"1",
        written: b"grade,a ,b,count\n3,2,u,1\n",
    },
    Case {
        text: b"w,1,count\n\"2\",z,\"02  \"\n",
        factors: &[("w", &["2"]), ("1", &["z"])],
        entries: b"2",
        written: b"w,1,count\n2,z,2\n",
    },
    Case {
        text: b"count,\"f1\",\"u\r\nv\"\n1,\"z\",0\n12,1,0\n999,u,02\n 02,z,count\n2,u,\"0\"\n099\
        9,1,02\n12,u,count\n1,\"z\",02\n 40  ,1,count\n",
        factors: &[("f1", &["z", "1", "u"]), ("u\r\nv", &["0", "02", "count"])],
        entries: b"1 1 2 12 999 40 2 999 12",
        written: b"f1,\"u\r\nv\",count\nz,0,1\nz,02,1\nz,count,2\n1,0,12\n1,02,999\n1,count,40\nu\
        ,0,2\nu,02,999\nu,count,12\n",
    },
    Case {
        text: b" a,\"x,y\",site,count\n\xc3\x9f,x,no, *\n ,x,no,999\n,3,no,01  \n",
        factors: &[
            (" a", &["\u{df}", " ", ""]),
            ("x,y", &["x", "3"]),
            ("site", &["no"]),
        ],
        entries: b"* 0 999 0 0 1",
        written: b" a,\"x,y\",site,count\n\xc3\x9f,x,no,*\n\xc3\x9f,3,no,0\n ,x,no,999\n ,3,no,0\
        \n,x,no,0\n,3,no,1\n",
    },
    Case {
        text: b"\"3\",v,count\n\" x\",\xc3\xa9,\"999\"\n ,\"\xc3\xa9\",01\n1,\"u\nv\", 0\n1,\xc3\
        \xa9,5\n",
        factors: &[("3", &[" x", " ", "1"]), ("v", &["\u{e9}", "u\nv"])],
        entries: b"999 0 1 0 5 0",
        written: b"3,v,count\n x,\xc3\xa9,999\n x,\"u\nv\",0\n ,\xc3\xa9,1\n ,\"u\nv\",0\n1,\xc3\
        \xa9,5\n1,\"u\nv\",0\n",
    },
    Case {
        text: b"y,1,2,\"count\"\r\n\xc3\xa9,1, , 999  \r\n\xc3\xa9,\"1\",q\"r,3  \r\nz,1, ,\"40\"\
        \r\nz,1,q\"r, 002",
        factors: &[
            ("y", &["\u{e9}", "z"]),
            ("1", &["1"]),
            ("2", &[" ", "q\"r"]),
        ],
        entries: b"999 3 40 2",
        written: b"y,1,2,count\n\xc3\xa9,1, ,999\n\xc3\xa9,1,\"q\"\"r\",3\nz,1, ,40\nz,1,\"q\"\"r\
        \",2\n",
    },
    Case {
        text: b"\xef\xbb\xbf\"|\",\"f1\",b,count\n\"\xef\xbb\xbfb\",\"z\",count,01  \n\"'x'\",\"z\
        \",count,12\n\xef\xbb\xbfb,u,count,01  \n02,z,count,3\n02,u,count,\"*\"\n'x',u,count,*",
        factors: &[
            ("|", &["\u{feff}b", "'x'", "02"]),
            ("f1", &["z", "u"]),
            ("b", &["count"]),
        ],
        entries: b"1 1 12 * 3 *",
        written: b"|,f1,b,count\n\xef\xbb\xbfb,z,count,1\n\xef\xbb\xbfb,u,count,1\n'x',z,count,12\
        \n'x',u,count,*\n02,z,count,3\n02,u,count,*\n",
    },
    Case {
        text: b"\"*\",Count,count\r\n0,u, 03\r\n",
        factors: &[("*", &["0"]), ("Count", &["u"])],
        entries: b"3",
        written: b"*,Count,count\n0,u,3\n",
    },
    Case {
        text: b" ,grade,f1,count\n1,\"count\",\xc3\xa9,01\n1,count,,1\n1,\"u\nv\",,3\n1,\"u\nv\",\
        \xc3\xa9,40\n",
        factors: &[
            (" ", &["1"]),
            ("grade", &["count", "u\nv"]),
            ("f1", &["\u{e9}", ""]),
        ],
        entries: b"1 1 40 3",
        written: b" ,grade,f1,count\n1,count,\xc3\xa9,1\n1,count,,1\n1,\"u\nv\",\xc3\xa9,40\n1,\"\
        u\nv\",,3\n",
    },
    Case {
        text: b"\"count\",\"w\",x\r\n2,v,\"z\"\r\n1,v,u\r\n5,v,3\r\n*,x,3\r\n\"*  \",\"x\",z\r\n0\
        ,\"x\",u\r\n",
        factors: &[("w", &["v", "x"]), ("x", &["z", "u", "3"])],
        entries: b"2 1 5 * 0 *",
        written: b"w,x,count\nv,z,2\nv,u,1\nv,3,5\nx,z,*\nx,u,0\nx,3,*\n",
    },
    Case {
        text: b"\"u\",count,v\r\n2, 2,\\\r\n2,2,*\r\n",
        factors: &[("u", &["2"]), ("v", &["\\", "*"])],
        entries: b"2 2",
        written: b"u,v,count\n2,\\,2\n2,*,2\n",
    },
    Case {
        text: b"w,2,count\r\n3,y, 01\r\n3,2,02\r\n",
        factors: &[("w", &["3"]), ("2", &["y", "2"])],
        entries: b"1 2",
        written: b"w,2,count\n3,y,1\n3,2,2\n",
    },
    Case {
        text: b",q\"r,Count,count\n\nx,\",\",3,40  \nz,\",\",3, 40\nx,no,3,01\n1,no,3,00\nz,no,\"\
        3\", 999\n1,\",\",3,1\n",
        factors: &[
            ("", &["x", "z", "1"]),
            ("q\"r", &[",", "no"]),
            ("Count", &["3"]),
        ],
        entries: b"40 1 40 999 1 0",
        written: b",\"q\"\"r\",Count,count\nx,\",\",3,40\nx,no,3,1\nz,\",\",3,40\nz,no,3,999\n1,\
        \",\",3,1\n1,no,3,0\n",
    },
    Case {
        text: b"3,y,v,count\n2,\"u\nv\",w,*  \n2,'x',w,0\n",
        factors: &[("3", &["2"]), ("y", &["u\nv", "'x'"]), ("v", &["w"])],
        entries: b"* 0",
        written: b"3,y,v,count\n2,\"u\nv\",w,*\n2,'x',w,0\n",
    },
    Case {
        text: b"f1, ,count\nw,\"count\",999\nw,\",\", 999\ny,no,05",
        factors: &[("f1", &["w", "y"]), (" ", &["count", ",", "no"])],
        entries: b"999 999 0 0 0 5",
        written: b"f1, ,count\nw,count,999\nw,\",\",999\nw,no,0\ny,count,0\ny,\",\",0\ny,no,5\n",
    },
    Case {
        text: b"\xef\xbb\xbfx,v,count\n3, x,0040\n",
        factors: &[("x", &["3"]), ("v", &[" x"])],
        entries: b"40",
        written: b"x,v,count\n3, x,40\n",
    },
];
